// Packed runs: theorems, no code.
#![tactic(auto)]
