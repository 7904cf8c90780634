// The lines of `still`, proved; the program itself only reads, hands on and writes.
//
// No public function has a `requires`: any byte is a step, and where too little is lent that is the answer.
#![tactic(auto)]

mod say;
mod span;
mod steps;
mod still;
mod text;

pub use steps::{Reading, Stepped, finish, start, step};
