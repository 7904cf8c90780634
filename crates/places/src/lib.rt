// Where the neighbours A (left), B (above left) and C (above) of a macroblock's blocks lie.
#![tactic(auto)]

mod place;

pub use place::{Place, Source, a_block, a_source, b_block, b_source, c_block, c_source};
