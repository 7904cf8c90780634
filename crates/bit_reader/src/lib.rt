// A reader that holds its bytes, thin over the cursor (bitreader.rs's BitReader).
//
// No public function has a `requires`: what the cursor refuses is refused here by the same number,
// and a refusal leaves the position where it was.
#![tactic(auto)]

mod place;
mod reader;

pub use reader::BitReader;
