// Laws only, no code: how far the operations of f64 are from exact, over whole numbers.
#![tactic(auto)]
