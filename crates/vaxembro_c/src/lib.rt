// The functions of `vaxembro`, exported to C as they stand there.
//
// A slice is a pointer and a length there.
#![tactic(auto)]

mod alone;
mod answer;
mod pictures;
mod whole;
