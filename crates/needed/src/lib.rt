// Short ways to what a block needs of its neighbours, and to refusal 13 before the first block.
//
// No public function has a `requires`: `predictors_needed` refuses as `neighbours::block_predictors` does (11, 12, 14).
#![tactic(auto)]

mod needed;
mod stored;

pub use needed::predictors_needed;
pub use stored::stored_fine;
