// Intra prediction (predictor.rs; 7.4.3): the direction, the scaler of the DC, and the predictions of the DC and of seven AC levels.
//
// No public function has a `requires`. Where a call has a quantiser, a depth, a level or a predictor that document 01 refuses, it is
// refused by 12 or 13, and lent memory stays as it was.
#![tactic(auto)]

mod predictor;
mod refusal;

pub use predictor::{
    BlockPredictors, all_levels, dc_scaler, default_neighbour_dc, predict_intra_ac_column,
    predict_intra_ac_row, predict_intra_dc, predict_seven, select_dc_direction, values_fine,
};
pub use refusal::CoefficientError;
