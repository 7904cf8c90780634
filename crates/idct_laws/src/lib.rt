// Laws only, no code, of a transform's whole numbers. Before they are limited: outside the tolerance what `round` gives;
// near a half of the exact transform, and away from every half; a DC alone. Before and after: how far those of two blocks
// of values can be apart. And of its constants: how near they are to square roots, and how near the whole numbers are to
// the transform worked with others near them.
#![tactic(auto)]
