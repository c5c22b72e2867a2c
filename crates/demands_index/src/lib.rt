// An index and its line: theorems, no code.
#![tactic(auto)]
