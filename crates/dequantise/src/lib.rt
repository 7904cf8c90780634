// Inverse quantisation of one coefficient (inverse_quant.rs; ISO/IEC 14496-2, 7.4.4.1 and 7.4.4.2), the parameters of a block, and
// the tests of what it takes.
//
// No public function has a `requires`. Where a call has a quantiser, a weight or a level that document 01 refuses, it is refused by
// 12 or 13.
#![tactic(auto)]

mod coefficient;
mod context;

pub use coefficient::{
    inverse_quant_intra_dc, inverse_quant_method1_coef, inverse_quant_method2_coef,
};
pub use context::{InverseQuantContext, context_fine, matrix_fine, row_fine};
