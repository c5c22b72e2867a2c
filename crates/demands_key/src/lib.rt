// Records that know their key, and a cap beside a cut: theorems, no code.
#![tactic(auto)]
