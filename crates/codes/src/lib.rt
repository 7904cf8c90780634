// The code tables of Annex B and the search in them (tcoef_tables.rs, rvlc_tables.rs, the DC size
// tables of texture.rs and the I-VOP tables of macroblock.rs).
//
// A table indexed as a constant is made anew at each read, so each is made once by its function and
// lent from then on. No public function has a `requires`.
#![tactic(auto)]

mod dc_size;
mod first_bits;
mod header_tables;
mod rvlc_tables;
mod search;
mod tcoef_tables;

pub use dc_size::{DcComponent, dc_size_codes, dc_size_lens};
pub use first_bits::{dc_plain, lmax_intra, rmax_intra, tcoef_long, tcoef_plain, tcoef_short};
pub use header_tables::{cbpy_codes, cbpy_lens, cbpy_short, mcbpc_codes, mcbpc_lens, mcbpc_short};
pub use rvlc_tables::{rvlc_codes, rvlc_events, rvlc_lens};
pub use search::{ends_inside, find_row};
pub use tcoef_tables::{TcoefTable, tcoef_codes, tcoef_events, tcoef_lens};
