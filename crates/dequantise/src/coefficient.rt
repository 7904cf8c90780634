// One coefficient (7.4.4.1 and 7.4.4.2): the DC of an intra block, and both methods, before limiting.
ghost use Rattle.std.specs.Prelude.{◌≡◌, ◌≤◌, nat_abs};
ghost use Rattle.prediction.specs.Outcomes.{value_outcome};
ghost use Rattle.dequantise.specs.Methods.{intra_dc, method1, method2};
ghost use Rattle.dequantise.specs.Outcomes.{intra_dc_due, method1_due, method2_due};
ghost use Rattle.dequantise.specs.Stages.{intra_dc_answer, method1_answer, method2_answer};

use codes::DcComponent;
use prediction::CoefficientError;

// 7.4.4.1.1, of a level and a quantiser that is one: its scaler is never refused.
fn intra_dc(
    qf00: i32,
    component: DcComponent,
    quantiser_scale: u32,
    short_video_header: bool,
) -> i32
    requires { (nat_abs qf00 ≤ 2048) × (1 ≤ quantiser_scale) × (quantiser_scale ≤ 31) }
    ensures { result ≡ intra_dc qf00 component quantiser_scale short_video_header }
{
    if short_video_header {
        return qf00 * 8;
    }
    match prediction::dc_scaler(component, quantiser_scale) {
        Err(_) => 0,
        Ok(n) => qf00 * (n as i32),
    }
}

// 7.4.4.1.1: the DC of an intra block, before limiting; or 12 or 13.
pub fn inverse_quant_intra_dc(
    qf00: i32,
    component: DcComponent,
    quantiser_scale: u32,
    short_video_header: bool,
) -> Result<i32, CoefficientError>
    ensures value { result ≡ intra_dc_answer qf00 component quantiser_scale short_video_header }
    ensures outcome { value_outcome result ≡ intra_dc_due qf00 component quantiser_scale short_video_header }
{
    if !ranges::Quantiser::fine(quantiser_scale) {
        return Err(CoefficientError::Context);
    }
    if !ranges::Level::fine(qf00) {
        return Err(CoefficientError::HandedIn);
    }
    Ok(intra_dc(qf00, component, quantiser_scale, short_video_header))
}

// 7.4.4.1.2, of a level and a quantiser up to 511: cut toward zero. Either rule gives 0 at 0.
fn method1_coef(qf: i32, w: u8, quantiser_scale: u32, macroblock_intra: bool) -> i32
    requires { (nat_abs qf ≤ 2048) × (quantiser_scale ≤ 511) }
    ensures { result ≡ method1 macroblock_intra qf w quantiser_scale }
{
    if macroblock_intra {
        return (qf * (w as i32) * (quantiser_scale as i32) * 2) / 16;
    }
    let sign = qf.signum();
    ((2 * qf + sign) * (w as i32) * (quantiser_scale as i32)) / 16
}

// 7.4.4.1.2: one value by method 1, before limiting; or 12 or 13.
pub fn inverse_quant_method1_coef(
    qf: i32,
    w: u8,
    quantiser_scale: u32,
    macroblock_intra: bool,
) -> Result<i32, CoefficientError>
    ensures value { result ≡ method1_answer qf w quantiser_scale macroblock_intra }
    ensures outcome { value_outcome result ≡ method1_due qf w quantiser_scale macroblock_intra }
{
    if !ranges::Quantiser::fine(quantiser_scale) || w == 0 {
        return Err(CoefficientError::Context);
    }
    if !ranges::Level::fine(qf) {
        return Err(CoefficientError::HandedIn);
    }
    Ok(method1_coef(qf, w, quantiser_scale, macroblock_intra))
}

// 7.4.4.2.1, of a level and a quantiser up to 511: (2 QF + sign) q, less the sign for an even q.
fn method2_coef(qf: i32, quantiser_scale: u32) -> i32
    requires { (nat_abs qf ≤ 2048) × (1 ≤ quantiser_scale) × (quantiser_scale ≤ 511) }
    ensures { result ≡ method2 qf quantiser_scale }
{
    let sign = qf.signum();
    let even = 1 - ((quantiser_scale % 2) as i32);
    (2 * qf + sign) * (quantiser_scale as i32) - sign * even
}

// 7.4.4.2.1: one value by method 2, before limiting; or 12 or 13.
pub fn inverse_quant_method2_coef(qf: i32, quantiser_scale: u32) -> Result<i32, CoefficientError>
    ensures value { result ≡ method2_answer qf quantiser_scale }
    ensures outcome { value_outcome result ≡ method2_due qf quantiser_scale }
{
    if !ranges::Quantiser::fine(quantiser_scale) {
        return Err(CoefficientError::Context);
    }
    if !ranges::Level::fine(qf) {
        return Err(CoefficientError::HandedIn);
    }
    Ok(method2_coef(qf, quantiser_scale))
}
