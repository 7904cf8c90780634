// Laws only, no code: a run of openings and calls is the list of the macroblocks that it accepted since its last opening.
#![tactic(auto)]
