// Working copies: theorems, no code.
#![tactic(auto)]
