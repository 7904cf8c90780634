// Definitions and laws only, no code: the transform of Annex A.1 in f64, by rows and by even and odd halves, and how near
// its values and its whole numbers are to the exact one.
#![tactic(auto)]
