// Colour: sequences in a text, the prefix of a look, and one formatted text.
#![tactic(auto)]

use widths::Rule;
use words::{Alignment, Color, Padding, Styles};

// What a line is made for.
#[derive(Clone, Copy)]
pub struct Settings {
    pub colour: bool,
    pub straight: bool,
    pub rule: Rule,
}

// The styles and the colour that apply to a text; `None` where no colour applies.
#[derive(Clone, Copy)]
pub struct Look {
    pub styles: Styles,
    pub ink: Option<Color>,
}

// How a text is written, defaults and levels resolved.
#[derive(Clone, Copy)]
pub struct Format {
    pub width: usize,
    pub alignment: Alignment,
    pub padding: Padding,
    pub look: Look,
}

// Where the search for colour sequences stands.
#[derive(Clone, Copy, Default)]
pub enum State {
    // no sequence has begun
    #[default]
    Outside,
    // after byte 27
    Escape,
    // after byte 27 and `[`
    Bracket,
    // after those and a single `0`: with `m` it is the reset
    LoneZero,
    // after those and any other digits and `;`
    Digits,
}

// What a byte does in the search.
#[derive(Clone, Copy)]
pub enum Act {
    // it is text, and so is what was held
    Text,
    // it is byte 27
    Esc,
    // it goes on with a sequence
    More(State),
    // it ends a sequence that is not the reset
    Done,
    // it ends the reset
    Reset,
}

// What the search has found: the bytes held of a sequence that has begun, the bytes of whole sequences, the resets.
#[derive(Clone, Copy, Default)]
pub struct Scan {
    pub state: State,
    pub held: usize,
    pub sequences: usize,
    pub resets: usize,
}
