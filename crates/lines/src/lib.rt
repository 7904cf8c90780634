// An input, byte after byte, split into lines of at most 32,768 bytes.
//
// No public function has a `requires`: any count and any byte have an answer.
#![tactic(auto)]

mod fed;

pub use fed::{Fed, feed, rest};
