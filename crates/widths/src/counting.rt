// Wide characters, counted byte by byte. A character may have begun in one text and end in the next, so that what has begun is handed on.
ghost use Rattle.std.specs.Prelude.{◌≡◌, ◌+◌, ◌<◌, ◌≤◌, ◌^◌};
ghost use Rattle.widths.specs.Widths.{is_wide, leading, begun_by, none_begun, gone_on, advanced};
ghost use Rattle.widths.specs.Fitting.{Fits};

use super::table::ENDS;
use super::{Pending, Wides};
use points::decoding::{size_of, with_six};
use points::search::is_among;

// The first range of wide characters begins here, and the one long range of them reaches from here up to there.
const FIRST: u32 = 0x1100;

const LONG: u32 = 0x3250;

const LONG_END: u32 = 0xA48D;

// Whether the character with the code point x is wide. Most that are asked about lie in the long range.
fn is_wide(x: u32) -> bool
    ensures { result ≡ is_wide x }
{
    if x < FIRST {
        return false;
    }
    if LONG <= x && x < LONG_END {
        return true;
    }
    is_among(&ENDS, x)
}

// The bits that a first byte says.
fn leading(b: u8) -> u16
    ensures { result ≡ leading b }
{
    match b {
        0..=0xBF => 0,
        0xC0..=0xDF => u16::from(b % 0x20),
        0xE0..=0xEF => u16::from(b % 0x10),
        _ => u16::from(b % 8),
    }
}

// The character that the byte b begins.
pub fn begun_by(b: u8) -> Pending
    ensures { result ≡ begun_by b }
{
    Pending {
        awaited: (size_of(b) - 1) as u8,
        bits: leading(b),
    }
}

// No character has begun behind so many wide ones.
fn nothing_begun(wide: usize) -> Wides
    ensures { result ≡ none_begun wide }
{
    Wides {
        pending: Pending::default(),
        wide,
    }
}

// One byte more, which goes on with a character.
fn gone_on(w: Wides, b: u8) -> Wides
    requires { Fits w.pending × (w.wide + 1 < 2 ^ 62) }
    ensures { result ≡ gone_on w.pending.awaited w.pending.bits w.wide b }
{
    let p = w.pending;
    if p.awaited == 0 {
        return nothing_begun(w.wide);
    }
    let x = with_six(u32::from(p.bits), b);
    if p.awaited == 1 {
        return nothing_begun(w.wide + usize::from(is_wide(x)));
    }
    Wides {
        pending: Pending {
            awaited: p.awaited - 1,
            bits: x as u16,
        },
        ..w
    }
}

// One byte more.
pub fn advance(w: Wides, b: u8) -> Wides
    requires { Fits w.pending × (w.wide + 1 < 2 ^ 62) }
    ensures { result ≡ advanced w b }
{
    if b / 0x40 == 2 {
        return gone_on(w, b);
    }
    Wides {
        pending: begun_by(b),
        ..w
    }
}
