// What a text counts: its characters, or the places that it takes on a screen.
#![tactic(auto)]

pub mod counting;
pub mod table;

// "a width rule": what padding counts.
#[derive(Clone, Copy)]
pub enum Rule {
    // the crate's: each character is one
    Characters,
    // "characters of East Asian Width W or F .. count two and all others one"
    Places,
}

// Of a character that has begun: how many of its bytes are still to come, and the bits that those before have said. It has no invariant (d): measures hold the
// two numbers apart, and what is asked of them is one word, `Fits`.
#[derive(Clone, Copy, Default)]
pub struct Pending {
    pub awaited: u8,
    pub bits: u16,
}

// How many wide characters there were, and the one that has begun behind them.
#[derive(Clone, Copy)]
pub struct Wides {
    pub pending: Pending,
    pub wide: usize,
}
