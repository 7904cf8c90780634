// The record that is kept of a macroblock: begun, a block put in, put into the store, and read again.
//
// No public function has a `requires`: a block above 5 is refused by 11, a quantiser that is none by 12, a record that
// is not whole, or does not lie in the store, by 14; what is read past the end of the store is 0.
#![tactic(auto)]

mod record;
mod refusal;
mod store;

pub use record::{
    Side, known, known_dc, missing, new_record, number, quantiser, seven, with_block,
};
pub use refusal::RecordError;
pub use store::put_record;
