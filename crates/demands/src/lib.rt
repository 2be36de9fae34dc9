// The demands on the lines, as statements, and their proofs: no code.
#![tactic(auto)]
