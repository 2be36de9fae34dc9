// A record: what a line is about, as it is laid out in bytes, and what its numbers mean.
#![tactic(auto)]

use words::Color;

pub mod layout;
pub mod levels;
pub mod marks;
pub mod numbers;

// Who logged: the scan head, or the tablet itself.
#[derive(Clone, Copy)]
pub enum Source {
    Defmt,
    Host,
}

// The name of a level.
#[derive(Clone, Copy)]
pub enum Name {
    Error,
    Warn,
    Info,
    Debug,
    Trace,
}

// What a level number means: a print without level, a level with its name and its colour, or nothing, so that the record is refused: the three cases that
// document 01 names (a).
#[derive(Clone, Copy)]
pub enum Level {
    Print,
    Named(Name, Color),
    Refused,
}

// How a record is laid out: the new form has a fifth text, the serial of the head that measured.
#[derive(Clone, Copy)]
pub enum Form {
    Old,
    New,
}

// A record as numbers: what its bytes say, and the places of its texts in them. Pairs stay plain numbers (d): clauses name each, and a type for them is no
// shorter. So do source, level and mask (d): refusal 14 judges them before they mean anything, and says how large they may be; and the level so beyond that (b):
// to match its `Level` at each segment took up to 5% more instructions (docs/DECISIONS.md).
#[derive(Clone, Copy)]
pub struct Places {
    pub source: usize,
    pub level: usize,
    pub mask: usize,
    pub line: usize,
    pub file_from: usize,
    pub file_to: usize,
    pub module_from: usize,
    pub module_to: usize,
    pub timestamp_from: usize,
    pub timestamp_to: usize,
    pub message_from: usize,
    pub message_to: usize,
    pub serial_from: usize,
    pub serial_to: usize,
}
