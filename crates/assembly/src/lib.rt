// What the blocks of a macroblock share: their context, which of them are coded, the default matrix, and why one is refused.
//
// No public function has a `requires`. The state is checked before any bit, by 11, 12 and 13 in this order.
#![tactic(auto)]

mod context;
mod error;
mod matrix;
mod pattern;

pub use context::MacroblockTextureContext;
pub use error::{BlockAssemblyError, check, context_fine};
pub use matrix::default_intra_quant_matrix;
pub use pattern::pattern_code;
