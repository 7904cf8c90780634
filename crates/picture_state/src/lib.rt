// The state of a picture of 1 to 45 by 1 to 36 intra macroblocks, row by row from the left: its opening, where the records
// of its macroblocks lie in a lent store, and what is asked of a call before any bit.
//
// The store has `Picture::STORE` numbers for each macroblock of width. A picture and a store that no opening made are answered too.
// No public function has a `requires`.
#![tactic(auto)]

mod picture;
mod ring;
mod state;

pub use picture::{MacroblockContext, Picture};
pub use state::{Due, check_before_header, check_state};
