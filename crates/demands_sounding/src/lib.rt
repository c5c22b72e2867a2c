// Soundings, and every export to C: theorems, no code.
#![tactic(auto)]
