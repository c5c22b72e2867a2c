// The order of refusals of every entry, that no refusal changes anything, and what a call is: theorems, no code.
#![tactic(auto)]
