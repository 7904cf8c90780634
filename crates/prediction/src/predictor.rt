// Intra prediction (predictor.rs; 7.4.3).
ghost use Rattle.std.specs.Prelude.{◌≡◌, ℕ, ◌≤◌, ◌<◌, min, T, get_or, nat_abs, pos};
ghost use Rattle.ranges.specs.Range.{level_fine};
ghost use Rattle.numbers.specs.Every.{every};
ghost use Rattle.prediction.specs.Refusal.{after, values_fine};
ghost use Rattle.prediction.specs.Prediction.{dc_scaler, direction_of, default_dc, outside_of, dc_prediction, ac_prediction};
ghost use Rattle.prediction.specs.Outcomes.{ac_due, dc_due, default_due, direction_due, direction_outcome, scaler_due, scaler_outcome, seven_due, stage_outcome, value_outcome};
ghost use Rattle.prediction.specs.Stages.{scaler_answer, direction_answer, default_answer, dc_answer, ac_added, ac_answer, seven_answer, seven_predicted};

use crate::refusal::CoefficientError;
use codes::DcComponent;
use ranges::{Depth, Difference, Level, NeighbourDc, Quantiser};
use scan::DcPredictionDirection;

// What a block takes of its neighbours A (left), B (above left) and C (above). The Rust's
// `Option<[i32; 7]>` is a flag beside an array.
#[derive(Clone, Copy)]
pub struct BlockPredictors {
    pub fa_dc: i32,
    pub fb_dc: i32,
    pub fc_dc: i32,
    pub qp_a: u32,
    pub qp_c: u32,
    pub a_has_column: bool,
    pub a_first_column: [i32; 7],
    pub c_has_row: bool,
    pub c_first_row: [i32; 7],
}

impl BlockPredictors {
    // All neighbours missing. A depth above 12, which every stage refuses, is taken as 12.
    pub fn outside(bits_per_pixel: u32, quantiser_scale: u32) -> Self
        ensures { result ≡ outside_of bits_per_pixel quantiser_scale }
    {
        let dc = missing_dc(bits_per_pixel);
        BlockPredictors {
            fa_dc: dc,
            fb_dc: dc,
            fc_dc: dc,
            qp_a: quantiser_scale,
            qp_c: quantiser_scale,
            a_has_column: false,
            a_first_column: [0i32; 7],
            c_has_row: false,
            c_first_row: [0i32; 7],
        }
    }
}

// 2^(depth + 2), of a depth up to 12.
fn missing_dc(bits_per_pixel: u32) -> i32
    ensures { result ≡ default_dc (min bits_per_pixel 12) }
{
    1i32 << (bits_per_pixel.min(12) + 2)
}

// The DC of a missing neighbour: 2^(depth + 2), or 12.
pub fn default_neighbour_dc(bits_per_pixel: u32) -> Result<i32, CoefficientError>
    ensures value { result ≡ default_answer bits_per_pixel }
    ensures outcome { value_outcome result ≡ default_due bits_per_pixel }
{
    if !Depth::fine(bits_per_pixel) {
        return Err(CoefficientError::Context);
    }
    Ok(missing_dc(bits_per_pixel))
}

// Table 7-1, of a quantiser up to 511.
fn scaler_of(component: DcComponent, q: u32) -> u32
    requires { q ≤ 511 }
    ensures { (result ≡ dc_scaler component q) × (result ≤ 1006) }
{
    match component {
        DcComponent::Luminance => match q {
            0..=4 => 8,
            5..=8 => 2 * q,
            9..=24 => q + 8,
            _ => 2 * q - 16,
        },
        DcComponent::Chrominance => match q {
            0..=4 => 8,
            5..=24 => (q + 13) / 2,
            _ => q - 6,
        },
    }
}

// Table 7-1, or 12.
pub fn dc_scaler(component: DcComponent, quantiser_scale: u32) -> Result<u32, CoefficientError>
    ensures value { result ≡ scaler_answer component quantiser_scale }
    ensures outcome { scaler_outcome result ≡ scaler_due component quantiser_scale }
{
    if !Quantiser::fine(quantiser_scale) {
        return Err(CoefficientError::Context);
    }
    Ok(scaler_of(component, quantiser_scale))
}

// 7.4.3.1: from C where |FA - FB| < |FB - FC|, else from A.
fn direction_of(fa: i32, fb: i32, fc: i32) -> DcPredictionDirection
    requires { (nat_abs fa ≤ 65536) × (nat_abs fb ≤ 65536) × (nat_abs fc ≤ 65536) }
    ensures { result ≡ direction_of fa fb fc }
{
    if (fa - fb).unsigned_abs() < (fb - fc).unsigned_abs() {
        DcPredictionDirection::FromAbove
    } else {
        DcPredictionDirection::FromLeft
    }
}

// 7.4.3.1, or 13.
pub fn select_dc_direction(
    fa: i32,
    fb: i32,
    fc: i32,
) -> Result<DcPredictionDirection, CoefficientError>
    ensures value { result ≡ direction_answer fa fb fc }
    ensures outcome { direction_outcome result ≡ direction_due fa fb fc }
{
    if !(NeighbourDc::fine(fa) && NeighbourDc::fine(fb) && NeighbourDc::fine(fc)) {
        return Err(CoefficientError::HandedIn);
    }
    Ok(direction_of(fa, fb, fc))
}

// 7.4.3.2: the prediction of the DC level.
fn dc_prediction(direction: DcPredictionDirection, fa_dc: i32, fc_dc: i32, scaler: u32) -> i32
    requires { (nat_abs fa_dc ≤ 65536) × (nat_abs fc_dc ≤ 65536) }
    ensures { (result ≡ dc_prediction direction fa_dc fc_dc scaler) × (nat_abs result ≤ 65536) }
{
    match direction {
        DcPredictionDirection::FromLeft => numbers::div_round_half_away(fa_dc, scaler),
        DcPredictionDirection::FromAbove => numbers::div_round_half_away(fc_dc, scaler),
    }
}

// 7.4.3.2: the DC level of a difference, before limiting; or 13.
pub fn predict_intra_dc(
    pqfx_dc: i32,
    direction: DcPredictionDirection,
    fa_dc: i32,
    fc_dc: i32,
    dc_scaler_x: u32,
) -> Result<i32, CoefficientError>
    ensures value { result ≡ dc_answer pqfx_dc direction fa_dc fc_dc dc_scaler_x }
    ensures outcome { value_outcome result ≡ dc_due pqfx_dc direction fa_dc fc_dc dc_scaler_x }
{
    if !(Difference::fine(pqfx_dc) && NeighbourDc::fine(fa_dc) && NeighbourDc::fine(fc_dc)) {
        return Err(CoefficientError::HandedIn);
    }
    Ok(pqfx_dc + dc_prediction(direction, fa_dc, fc_dc, dc_scaler_x))
}

// 7.4.3.3: the prediction of an AC level from a neighbour's.
fn ac_prediction(qf: i32, qp: u32, qp_x: u32) -> i32
    requires { (nat_abs qf ≤ 2048) × (qp ≤ 511) }
    ensures { (result ≡ ac_prediction qf qp qp_x) × (nat_abs result ≤ 1046528) }
{
    numbers::div_round_half_away(qf * (qp as i32), qp_x)
}

// 7.4.3.3: the predictions of seven AC levels. Under one quantiser they are the values.
fn seven_predictions(values: [i32; 7], qp: u32, q: u32) -> [i32; 7]
    requires { ((k : ℕ) → k < 7 → nat_abs (get_or values k (pos 0)) ≤ 2048) × (qp ≤ 511) × (1 ≤ q) }
    ensures { result ≡ seven_predicted values qp q }
{
    if qp == q {
        return values;
    }
    let mut more = [0i32; 7];
    for k in 0..7 {
        more[k] = ac_prediction(values[k], qp, q);
    }
    more
}

// Whether each of seven values is a level.
pub fn all_levels(values: [i32; 7]) -> bool
    ensures { result ≡ every level_fine values }
{
    values.iter().all(|v| Level::fine(*v))
}

// Whether a neighbour's values may be handed in, where it is there.
pub fn values_fine(has: bool, values: [i32; 7]) -> bool
    ensures { result ≡ values_fine has values }
{
    !has || all_levels(values)
}

// 7.4.3.3: the predictions of seven AC levels from a neighbour's, into `more`; or 12 or 13, and `more` as it was.
pub fn predict_seven(
    values: [i32; 7],
    qp: u32,
    q: u32,
    more: &mut [i32; 7],
) -> Result<(), CoefficientError>
    ensures value { (result ≡ seven_answer values qp q) × (more.new ≡ after (seven_answer values qp q) (seven_predicted values qp q) more.old) }
    ensures outcome { stage_outcome result ≡ seven_due values qp q }
{
    if !Quantiser::fine(q) {
        return Err(CoefficientError::Context);
    }
    if !(Quantiser::fine(qp) && all_levels(values)) {
        return Err(CoefficientError::HandedIn);
    }
    *more = seven_predictions(values, qp, q);
    Ok(())
}

// Seven levels with the prediction from a neighbour added; a missing one adds nothing.
fn ac_added(pqfx: [i32; 7], has: bool, qf: [i32; 7], qp: u32, qp_x: u32) -> [i32; 7]
    requires { ((k : ℕ) → k < 7 → nat_abs (get_or pqfx k (pos 0)) ≤ 2048) × (T has → (k : ℕ) → k < 7 → nat_abs (get_or qf k (pos 0)) ≤ 2048) × (qp ≤ 511) × (1 ≤ qp_x) }
    ensures { result ≡ ac_added pqfx has qf qp qp_x }
{
    if !has {
        return pqfx;
    }
    let more = seven_predictions(qf, qp, qp_x);
    let mut out = [0i32; 7];
    for k in 0..7 {
        out[k] = pqfx[k] + more[k];
    }
    out
}

// 7.4.3.3: seven levels with the prediction from a neighbour added, before limiting; or 12 or 13.
fn predict_intra_ac(
    pqfx: [i32; 7],
    has: bool,
    qf: [i32; 7],
    qp: u32,
    qp_x: u32,
    out: &mut [i32; 7],
) -> Result<(), CoefficientError>
    ensures { (result ≡ ac_answer pqfx has qf qp qp_x) × (out.new ≡ after (ac_answer pqfx has qf qp qp_x) (ac_added pqfx has qf qp qp_x) out.old) }
{
    if !Quantiser::fine(qp_x) {
        return Err(CoefficientError::Context);
    }
    if !(all_levels(pqfx) && Quantiser::fine(qp) && values_fine(has, qf)) {
        return Err(CoefficientError::HandedIn);
    }
    *out = ac_added(pqfx, has, qf, qp, qp_x);
    Ok(())
}

// 7.4.3.3: the first column of levels, predicted from A, before limiting; or 12 or 13.
pub fn predict_intra_ac_column(
    pqfx_col: [i32; 7],
    has_column: bool,
    qfa_col: [i32; 7],
    qp_a: u32,
    qp_x: u32,
    out: &mut [i32; 7],
) -> Result<(), CoefficientError>
    ensures value { (result ≡ ac_answer pqfx_col has_column qfa_col qp_a qp_x) × (out.new ≡ after (ac_answer pqfx_col has_column qfa_col qp_a qp_x) (ac_added pqfx_col has_column qfa_col qp_a qp_x) out.old) }
    ensures outcome { stage_outcome result ≡ ac_due pqfx_col has_column qfa_col qp_a qp_x }
{
    predict_intra_ac(pqfx_col, has_column, qfa_col, qp_a, qp_x, out)
}

// 7.4.3.3: the first row of levels, predicted from C, before limiting; or 12 or 13.
pub fn predict_intra_ac_row(
    pqfx_row: [i32; 7],
    has_row: bool,
    qfc_row: [i32; 7],
    qp_c: u32,
    qp_x: u32,
    out: &mut [i32; 7],
) -> Result<(), CoefficientError>
    ensures value { (result ≡ ac_answer pqfx_row has_row qfc_row qp_c qp_x) × (out.new ≡ after (ac_answer pqfx_row has_row qfc_row qp_c qp_x) (ac_added pqfx_row has_row qfc_row qp_c qp_x) out.old) }
    ensures outcome { stage_outcome result ≡ ac_due pqfx_row has_row qfc_row qp_c qp_x }
{
    predict_intra_ac(pqfx_row, has_row, qfc_row, qp_c, qp_x, out)
}
