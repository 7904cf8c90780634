// Examples only, no code: document 01's P1 to P10.
#![tactic(auto)]
