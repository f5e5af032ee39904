// What we promise: statements and their proofs, no code.
#![tactic(auto)]
