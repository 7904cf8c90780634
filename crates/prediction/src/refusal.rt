// The answers of the stages, and the numbers of their refusals.
ghost use Rattle.std.specs.Prelude.{◌≡◌};
ghost use Rattle.prediction.specs.Refusal.{number_of};

use scan::DcPredictionDirection;

// Why a stage refuses.
#[derive(Clone, Copy)]
pub enum CoefficientError {
    // 12: the quantiser, the depth, or a zero in the matrix under method 1
    Context,
    // 13: a predictor, level or value handed in
    HandedIn,
}

impl CoefficientError {
    // Document 01's number.
    pub fn number(self) -> u32
        ensures { result ≡ number_of self }
    {
        match self {
            CoefficientError::Context => 12,
            CoefficientError::HandedIn => 13,
        }
    }
}
