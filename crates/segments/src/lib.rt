// Segments: what a template is read as, and the lent pool that holds them.
#![tactic(auto)]

use words::{Alignment, LogFormat, LogMetadata, Padding, Styles};

// What a segment of the pool is: a text by its places in the template, a group by the link to its last member. A link is the place of a segment in the pool
// and one more, 0 for none; links count what was made, and clauses add to them (`Adds`, `back`, `last_member`), so that they are numbers and no `Option`s (d).
#[derive(Clone, Copy)]
pub enum Kind {
    Text(usize, usize),
    Group(usize),
    Specifier(LogMetadata),
}

// A segment as the pool holds it: what it is, how it asks to be written, which no text does, and the link to the member before it.
#[derive(Clone, Copy)]
pub struct Cell {
    pub kind: Kind,
    pub format: LogFormat,
    pub link: usize,
}

// What a pool has where nothing was stored.
pub const EMPTY: Cell = Cell {
    kind: Kind::Text(0, 0),
    format: LogFormat {
        styles: Styles {
            bold: false,
            dimmed: false,
            underline: false,
            italic: false,
            strike: false,
        },
        alignment: Alignment::Left,
        padding: Padding::Space,
        color: None,
        width: None,
    },
    link: 0,
};
