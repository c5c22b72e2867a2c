// Corrections over an original: theorems, no code.
#![tactic(auto)]
