// The bits of one block, and of the six blocks of a macroblock, into 64 places each.
//
// No public function has a `requires`: data too long, and a position past its end, are refused by 11.
#![tactic(auto)]

mod read;

pub use read::{PlacesRead, read_block, read_blocks};
