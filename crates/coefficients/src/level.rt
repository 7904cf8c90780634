// The levels of an intra block (7.4.3.2 to 7.4.3.4).
ghost use Rattle.std.specs.Prelude.{◌≡◌};
ghost use Rattle.prediction.specs.Refusal.{after};
ghost use Rattle.coefficients.specs.Level.{saturated, saturated_block, intra_scan, levels, levels_due, predictors_fine, levels_answer};
ghost use Rattle.prediction.specs.Outcomes.{stage_outcome};

use codes::DcComponent;
use prediction::{BlockPredictors, CoefficientError};
use ranges::{Level, NeighbourDc, Quantiser};
use scan::{DcPredictionDirection, ScanType};

// 7.4.3.4: a level limited to -2048..=2047.
pub fn saturate_qf(value: i32) -> i32
    ensures { result ≡ saturated value }
{
    value.clamp(Level::LEAST, Level::GREATEST)
}

// 7.4.3.4, of every level of a block.
pub fn saturate_block(block: [[i32; 8]; 8]) -> [[i32; 8]; 8]
    ensures { result ≡ saturated_block block }
{
    let mut out = [[0i32; 8]; 8];
    for v in 0..8 {
        for u in 0..8 {
            out[v][u] = saturate_qf(block[v][u]);
        }
    }
    out
}

// The scan of an intra block: `alternate_vertical_scan` overrides the choice of 7.4.2.
pub(crate) fn intra_scan(
    alternate_vertical_scan: bool,
    ac_pred_flag: bool,
    direction: DcPredictionDirection,
) -> ScanType
    ensures { result ≡ intra_scan alternate_vertical_scan ac_pred_flag direction }
{
    if alternate_vertical_scan {
        ScanType::AlternateVertical
    } else {
        scan::select_scan_type(true, ac_pred_flag, direction)
    }
}

// Whether predictors may be handed in (13). A missing neighbour's values are not looked at.
pub fn predictors_fine(p: BlockPredictors) -> bool
    ensures { result ≡ predictors_fine p }
{
    let column = p.a_first_column;
    let row = p.c_first_row;
    // an `if` for each: joined by `&&`, so many tests had no proof
    if !NeighbourDc::fine(p.fa_dc) {
        return false;
    }
    if !NeighbourDc::fine(p.fb_dc) {
        return false;
    }
    if !NeighbourDc::fine(p.fc_dc) {
        return false;
    }
    if !Quantiser::fine(p.qp_a) {
        return false;
    }
    if !Quantiser::fine(p.qp_c) {
        return false;
    }
    if !prediction::values_fine(p.a_has_column, column) {
        return false;
    }
    prediction::values_fine(p.c_has_row, row)
}

// The levels QF of an intra block out of its 64 places, into `qf`; or 12 or 13, and `qf` as it was.
pub fn intra_levels(
    qfs: [i32; 64],
    component: DcComponent,
    quantiser_scale: u32,
    ac_pred_flag: bool,
    alternate_vertical_scan: bool,
    predictors: BlockPredictors,
    qf: &mut [[i32; 8]; 8],
) -> Result<(), CoefficientError>
    ensures value { (result ≡ levels_answer quantiser_scale predictors qfs) × (qf.new ≡ after (levels_answer quantiser_scale predictors qfs) (levels component quantiser_scale ac_pred_flag alternate_vertical_scan predictors qfs) qf.old) }
    ensures outcome { stage_outcome result ≡ levels_due quantiser_scale predictors qfs }
{
    if !Quantiser::fine(quantiser_scale) {
        return Err(CoefficientError::Context);
    }
    if !predictors_fine(predictors) {
        return Err(CoefficientError::HandedIn);
    }
    let mut numbers = [0i32; 11];
    crate::handed::needed(predictors, quantiser_scale, ac_pred_flag, &mut numbers);
    crate::short::intra_levels_up_to(
        &qfs,
        64,
        component,
        quantiser_scale,
        ac_pred_flag,
        alternate_vertical_scan,
        &numbers,
        qf,
    )
}
