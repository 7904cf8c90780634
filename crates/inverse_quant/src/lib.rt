// From the levels QF of a block to dequantised values (inverse_quant.rs; ISO/IEC 14496-2, 7.4.4).
//
// No public function has a `requires`. Where a call has a quantiser, a depth, a matrix or a level that
// document 01 refuses, it is refused by 12 or 13, and lent memory stays as it was.
#![tactic(auto)]

mod block;
mod row;
mod rows;
mod value;

pub use block::{
    inverse_quant_method1, inverse_quant_method1_no_mismatch, inverse_quant_method2,
    inverse_quant_rows,
};
pub use dequantise::{
    InverseQuantContext, inverse_quant_intra_dc, inverse_quant_method1_coef,
    inverse_quant_method2_coef, matrix_fine,
};
