// One picture of 1 to 45 by 1 to 36 intra macroblocks, row by row from the left, each block with its own
// neighbours.
//
// The picture is a value that is handed back, its neighbour store is lent: 192 numbers for each macroblock
// of width. A picture and a store that no opening made are answered too. No public function has a `requires`.
#![tactic(auto)]

mod call;
mod reconstruct;
mod whole;

pub use call::{PictureDecoded, decode_macroblock};
pub use picture_state::{MacroblockContext, Picture};
pub use whole::{PictureWholeDecoded, decode_macroblock_with_header};
