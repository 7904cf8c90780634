// The forms of a line of text: `(picture ..)` and `(mb ..)`, as document 01's section 'Edges' has them.
//
// No public function has a `requires`: any bytes are a line, and what is no form is malformed.
#![tactic(auto)]

mod field;
mod hex;
mod kind;
mod line;

pub use kind::Kind;
pub use line::{Line, parse};
