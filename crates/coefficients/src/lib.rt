// From 64 places to the levels QF (scan.rs, predictor.rs; ISO/IEC 14496-2, 7.4.2 and 7.4.3). Blocks are
// 8 by 8 arrays that go by value from stage to stage. The stages before are crates of their own: `scan`, `scan_rows` and `prediction`.
//
// No public function has a `requires`. Where a call has a quantiser, a depth, a level or a predictor that
// document 01 refuses, it is refused by 12 or 13, and lent memory stays as it was.
#![tactic(auto)]

mod handed;
mod level;
mod short;

pub use handed::{adds_values, needed, needed_fine, put_numbers};
pub use level::{intra_levels, predictors_fine, saturate_block, saturate_qf};
pub use prediction::{
    BlockPredictors, CoefficientError, dc_scaler, default_neighbour_dc, predict_intra_ac_column,
    predict_intra_ac_row, predict_intra_dc, select_dc_direction,
};
pub use scan::{DcPredictionDirection, ScanType, inverse_scan, select_scan_type};
pub use short::intra_levels_up_to;
