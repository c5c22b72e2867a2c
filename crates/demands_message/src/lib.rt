// Messages read, written, measured and inserted into, and where a read failed: theorems, no code.
#![tactic(auto)]
