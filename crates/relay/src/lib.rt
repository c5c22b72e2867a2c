// A message read up to an end in a longer slice, beside the same bytes cut out. Nothing is done here: start reading in specs/.
#![tactic(auto)]
