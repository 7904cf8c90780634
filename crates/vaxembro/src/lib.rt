// The decoder for callers in C and Rust: numbers and lent slices only. `vaxembro_c` exports it.
//
// A slice is a pointer and a length there. Each function ends, allocates nothing and asks nothing of its caller.
#![tactic(auto)]

mod alone;
mod answer;
mod header;
mod lent;
mod pictures;
mod whole;

pub use alone::vaxembro_decode_intra_macroblock;
pub use answer::{
    vaxembro_bits, vaxembro_figure, vaxembro_number, vaxembro_position, vaxembro_spelling,
};
pub use pictures::{vaxembro_decode_macroblock, vaxembro_open};
pub use whole::{
    vaxembro_decode_intra_macroblock_with_header, vaxembro_decode_macroblock_with_header,
    vaxembro_parse_macroblock_header,
};
