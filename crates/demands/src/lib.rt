// The demands as theorems over the contracts of the face. Nothing is done here: start reading in specs/.
#![tactic(auto)]
