// Letters beyond ASCII: which characters are letters, as Rust's `char::is_alphabetic` decides, and a template in which they are marked. What reads names
// then tells letters byte by byte, and no character is decoded twice.
#![tactic(auto)]

pub mod doubt;
mod marking;
pub mod table;
