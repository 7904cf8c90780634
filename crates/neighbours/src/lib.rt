// What a block takes of its neighbours A (left), B (above left) and C (above), out of the store and the macroblock's own record.
//
// No public function has a `requires`: a block above 5 is refused by 11, a quantiser or a depth that is none by 12, a
// record that is not whole, or does not lie in the store, by 14; what the numbers of a store are is not asked here but by
// `neighbours_fine` (13).
#![tactic(auto)]

mod predictors;

pub use places::{Place, Source};
pub use predictors::{
    Taken, block_predictors, check_taken, neighbour_dc, neighbours_fine, place_lies,
};
pub use record::{RecordError, Side, new_record, put_record, with_block};
