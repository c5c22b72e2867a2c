// Soundings of the second edition: theorems, no code.
#![tactic(auto)]
