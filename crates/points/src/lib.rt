// Code points: a character by its bytes, and the search in a table of ranges of code points.
#![tactic(auto)]

pub mod decoding;
pub mod search;
