// One intra block out of bits (block.rs): 64 samples, 64 levels QF and the dequantised DC.
//
// No public function has a `requires`. The state is checked before any bit, by 11, 12 and 13 in this
// order; the bits are read whole before anything is reconstructed, so a refusal leaves the lent samples
// and levels as they were. What blocks share (`assembly`) and their reading (`block_reader`) are handed on.
#![tactic(auto)]

mod intra;
mod reconstruct;
mod short;

pub use assembly::{
    BlockAssemblyError, MacroblockTextureContext, check, context_fine, default_intra_quant_matrix,
    pattern_code,
};
pub use block_reader::{PlacesRead, read_block, read_blocks};
pub use intra::{BlockDecoded, decode_intra_block_full};
pub use reconstruct::reconstruct_block;
pub use short::reconstruct_up_to;
