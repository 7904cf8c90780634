// Events (texture.rs; 7.4.1.2, 7.4.1.3, Annex B): the sign after a row of a lent table, escapes whose
// fields stand in the bits, and how an event is spelled.
//
// No public function has a `requires`. Data of more than 1,048,576 bytes or a start past the end of the
// data is refused by 11; what the bits hold is refused by 1 and 5 to 7. A refusal hands back no position.
#![tactic(auto)]

mod event;
mod fixed;
mod row;
mod rvlc;
mod spelling;

pub use event::{AcEvent, RowForm};
pub use fixed::read_fixed;
pub use row::read_sign;
pub use rvlc::read_rvlc_escape;
pub use spelling::{Spelling, Spellings};
