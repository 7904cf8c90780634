// The DC part of a block (texture.rs; 7.4.1.1, Tables B.13 to B.15).
//
// No public function has a `requires`. Data of more than 1,048,576 bytes or a start past the end of the
// data is refused by 11; what the bits hold is refused by 1 to 3. A refusal hands back no position.
#![tactic(auto)]

mod dc;

pub use dc::{IntraDcDifferential, decode_intra_dc};
