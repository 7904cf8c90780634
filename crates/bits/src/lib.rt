// Bits from the top of each byte, read through a cursor (bitreader.rs).
//
// No public function has a `requires`: data of more than 1,048,576 bytes, a position past the end of
// the data and more than 32 bits at a time are refused by 11, and bits that are not there by 1.
#![tactic(auto)]

mod cursor;
mod error;
mod window;

pub use cursor::Cursor;
pub use error::BitReaderError;
pub use window::ahead;
