// The steps of reading (texture.rs; 7.4.1, Annex B): fields, markers and codes out of bits, and why reading refuses.
//
// No public function has a `requires`. Data of more than 1,048,576 bytes, a start past the end of the data
// and more than 32 bits at a time are refused by 11.
#![tactic(auto)]

mod code;
mod error;
mod field;

pub use code::{CodeKind, read_code};
pub use error::TextureParseError;
pub use field::{read_field, read_marker, readable};
