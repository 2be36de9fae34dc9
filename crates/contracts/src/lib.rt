// That the contracts settle everything: no code.
#![tactic(auto)]
