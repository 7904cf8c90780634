// One intra macroblock read alone (block.rs's decode_intra_macroblock, with macroblock.rs's header record):
// six blocks with the same predictors into 384 lent samples, with a header that is handed in or with its own in its bits.
//
// The bits of all six blocks are read before anything is reconstructed, so a refusal leaves the samples
// as they were. No public function has a `requires`.
#![tactic(auto)]

mod decode;
mod six;
mod whole;

pub use decode::{MacroblockDecoded, decode_intra_macroblock};
pub use headers::{
    DerivedMbType, HeaderFields, MacroblockHeader, check_header, parse_macroblock_header,
};
pub use whole::{WholeDecoded, decode_intra_macroblock_with_header};
