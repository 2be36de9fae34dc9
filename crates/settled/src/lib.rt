// What it means that a contract settles everything: no code.
#![tactic(auto)]
