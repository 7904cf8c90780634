// The header of a macroblock (macroblock.rs): its record, and an I-VOP's header out of bits: mcbpc, stuffing skipped,
// ac_pred_flag, cbpy, and dquant where the type has a quantiser change.
//
// No public function has a `requires`. A header is refused by 11, 12, then by 1, 16 and 17; a refusal hands back neither fields nor
// a position.
#![tactic(auto)]

mod header;
mod parse;
mod parts;
mod window;

pub use header::{DerivedMbType, MacroblockHeader, check_header};
pub use parse::{HeaderFields, parse_macroblock_header};
