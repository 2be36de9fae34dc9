// Measuring: what a text adds to a line, without writing it.
#![tactic(auto)]

use colour::Scan;
use widths::Rule;

pub mod additions;
pub mod framing;
pub mod growing;
pub mod padding;
mod seeing;
pub mod sink;

// By which rule a text is counted and, by the places rule, what is seen of a character that has begun: how many of its bytes are still to
// come, and the bits that those before have said. It stays small, as it is handed on with every measure: with a `Pending` in it, in which a byte is left over,
// it would take six bytes and not four (d).
#[derive(Clone, Copy)]
pub struct Eye {
    pub rule: Rule,
    pub awaited: u8,
    pub bits: u16,
}

// A text as measured: the search for colour sequences after it, what it counts, its bytes, the eye after it. Processors copy it by sixteen bytes, and
// what was written by one such copy is read fast: so the two numbers that every text adds to stand in one of them, and the eye behind.
#[derive(Clone, Copy)]
pub struct Measure {
    pub scan: Scan,
    pub count: usize,
    pub len: usize,
    pub eye: Eye,
}
