// The way to the levels: places by the scan with the DC's level among them, of which only the seven predicted levels beside it are limited.
ghost use Rattle.std.specs.Prelude.{true, ◌&&◌, ◌≡◌, ℕ, ◌≤◌, ◌<◌, eqb, nat_abs, pos, ◌+ℤ◌, drop, get_or, length};
ghost use Rattle.numbers.specs.Every.{every};
ghost use Rattle.ranges.specs.Range.{difference_fine, level_fine, quantiser_fine};
ghost use Rattle.scan_rows.specs.UpTo.{up_to};
ghost use Rattle.prediction.specs.Outcomes.{stage_outcome};
ghost use Rattle.prediction.specs.Prediction.{dc_prediction, dc_scaler, direction_by};
ghost use Rattle.prediction.specs.Refusal.{after};
ghost use Rattle.coefficients.specs.Level.{levels, levels_answer, levels_due, places_fine, predictors_fine, saturated};
ghost use Rattle.coefficients.specs.Needed.{numbered};
ghost use Rattle.coefficients.specs.Short.{Levelled, ac_predicted, column_added, row_added};

use crate::handed::{needed_fine, seven_in};
use crate::level::saturate_qf;
use codes::DcComponent;
use prediction::CoefficientError;
use scan::DcPredictionDirection;

// The place of the DC.
fn first_place(qfs: &[i32], end: usize) -> i32
    ensures { result ≡ get_or (up_to end qfs.now) 0 (pos 0) }
{
    if end.min(qfs.len()) == 0 { 0 } else { qfs[0] }
}

// Whether there are 64 places and all but the first hold levels.
fn all_fine(qfs: &[i32]) -> bool
    ensures { result ≡ (eqb (length qfs.now) 64 && every level_fine (drop 1 qfs.now)) }
{
    if qfs.len() != 64 {
        return false;
    }
    // no early end: no test waits for another
    let mut fine = true;
    for k in 1..64 {
        let level = ranges::Level::fine(qfs[k]);
        fine = fine & level;
    }
    fine
}

// Whether the places 1 .. end hold levels. As a rule all do, and to ask that takes no count of them.
fn levels_fine(qfs: &[i32], end: usize) -> bool
    ensures { result ≡ every level_fine (drop 1 (up_to end qfs.now)) }
{
    all_fine(qfs) || all_fine(&scan_rows::up_to(qfs, end))
}

// Whether the place of the DC holds a difference and the others levels.
fn places_fine(qfs: &[i32], end: usize) -> bool
    ensures { result ≡ places_fine (up_to end qfs.now) }
{
    ranges::Difference::fine(first_place(qfs, end)) && levels_fine(qfs, end)
}

// The first column with the prediction from A.
fn add_column(more: [i32; 7], qf: &mut [[i32; 8]; 8])
    requires { Levelled qf.old × ((k : ℕ) → k < 7 → nat_abs (get_or more k (pos 0)) ≤ 1046528) }
    ensures { qf.new ≡ column_added 7 more qf.old }
{
    for k in 0..7 {
        qf[k + 1][0] = saturate_qf(qf[k + 1][0] + more[k]);
    }
}

// The first row with the prediction from C.
fn add_row(more: [i32; 7], qf: &mut [[i32; 8]; 8])
    requires { Levelled qf.old × ((k : ℕ) → k < 7 → nat_abs (get_or more k (pos 0)) ≤ 1046528) }
    ensures { qf.new ≡ row_added 7 more qf.old }
{
    for k in 0..7 {
        qf[0][k + 1] = saturate_qf(qf[0][k + 1] + more[k]);
    }
}

// The first column, or row, with its prediction, where `ac_pred_flag` is set. Numbers in range are not refused.
fn predict(
    ac_pred_flag: bool,
    direction: DcPredictionDirection,
    n: &[i32; 11],
    q: u32,
    qf: &mut [[i32; 8]; 8],
)
    requires { (quantiser_fine q ≡ true) × (predictors_fine (numbered n.now) ≡ true) × Levelled qf.old }
    ensures { qf.new ≡ ac_predicted ac_pred_flag direction (numbered n.now) q qf.old }
{
    if !ac_pred_flag {
        return;
    }
    let mut more = [0i32; 7];
    let _ = prediction::predict_seven(seven_in(n), n[3].unsigned_abs(), q, &mut more);
    match direction {
        DcPredictionDirection::FromLeft => add_column(more, qf),
        DcPredictionDirection::FromAbove => add_row(more, qf),
    }
}

// The direction of numbers that are in range: it is never refused.
fn direction_by(n: &[i32; 11]) -> DcPredictionDirection
    requires { predictors_fine (numbered n.now) ≡ true }
    ensures { result ≡ direction_by (numbered n.now) }
{
    prediction::select_dc_direction(n[0], n[1], n[2]).unwrap_or(DcPredictionDirection::FromLeft)
}

// The level of the DC, of a difference, limited. Of a quantiser, a difference and numbers in range none is refused.
fn dc_level(
    difference: i32,
    direction: DcPredictionDirection,
    component: DcComponent,
    q: u32,
    n: &[i32; 11],
) -> i32
    requires { (difference_fine difference ≡ true) × (quantiser_fine q ≡ true) × (predictors_fine (numbered n.now) ≡ true) }
    ensures { result ≡ saturated (difference +ℤ dc_prediction direction (get_or n.now 0 (pos 0)) (get_or n.now 2 (pos 0)) (dc_scaler component q)) }
{
    let Ok(scaler) = prediction::dc_scaler(component, q) else {
        return 0;
    };
    let Ok(sum) = prediction::predict_intra_dc(difference, direction, n[0], n[2], scaler) else {
        return 0;
    };
    saturate_qf(sum)
}

// The levels of places and numbers that are in range.
fn put_levels(
    qfs: &[i32],
    end: usize,
    component: DcComponent,
    quantiser_scale: u32,
    ac_pred_flag: bool,
    alternate_vertical_scan: bool,
    n: &[i32; 11],
    qf: &mut [[i32; 8]; 8],
)
    requires { (quantiser_fine quantiser_scale ≡ true) × (predictors_fine (numbered n.now) ≡ true) × (places_fine (up_to end qfs.now) ≡ true) }
    ensures { qf.new ≡ levels component quantiser_scale ac_pred_flag alternate_vertical_scan (numbered n.now) (up_to end qfs.now) }
{
    let direction = direction_by(n);
    let scan_type = crate::level::intra_scan(alternate_vertical_scan, ac_pred_flag, direction);
    let difference = first_place(qfs, end);
    let level = dc_level(difference, direction, component, quantiser_scale, n);
    scan_rows::put_scanned(qfs, end, level, scan_type, qf);
    predict(ac_pred_flag, direction, n, quantiser_scale, qf);
}

// The levels QF of an intra block out of its places below `end`, the others taken as 0, into `qf`; or 12 or 13, and `qf` as it was.
pub fn intra_levels_up_to(
    qfs: &[i32],
    end: usize,
    component: DcComponent,
    quantiser_scale: u32,
    ac_pred_flag: bool,
    alternate_vertical_scan: bool,
    numbers: &[i32; 11],
    qf: &mut [[i32; 8]; 8],
) -> Result<(), CoefficientError>
    ensures value { (result ≡ levels_answer quantiser_scale (numbered numbers.now) (up_to end qfs.now)) × (qf.new ≡ after (levels_answer quantiser_scale (numbered numbers.now) (up_to end qfs.now)) (levels component quantiser_scale ac_pred_flag alternate_vertical_scan (numbered numbers.now) (up_to end qfs.now)) qf.old) }
    ensures outcome { stage_outcome result ≡ levels_due quantiser_scale (numbered numbers.now) (up_to end qfs.now) }
{
    if !ranges::Quantiser::fine(quantiser_scale) {
        return Err(CoefficientError::Context);
    }
    if !(needed_fine(numbers) && places_fine(qfs, end)) {
        return Err(CoefficientError::HandedIn);
    }
    put_levels(
        qfs,
        end,
        component,
        quantiser_scale,
        ac_pred_flag,
        alternate_vertical_scan,
        numbers,
        qf,
    );
    Ok(())
}
