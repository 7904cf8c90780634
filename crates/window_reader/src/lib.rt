// A short way to the bits of a macroblock: DC parts and plain events by one window of 32 bits each, with tables that are
// made once and lent. What a window does not settle, a refusal above all, is read the plain way from the start.
//
// The public function has no `requires`.
#![tactic(auto)]

mod list;
mod six;
mod symbol;

pub use six::read_six;
