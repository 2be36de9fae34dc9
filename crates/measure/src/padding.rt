// Padding: its byte, where it stands, and what it adds to a measure.
ghost use Rattle.std.specs.Prelude.{◌≡◌, ◌+◌, ◌<◌, ◌≤◌, ◌^◌, replicate};
ghost use Rattle.colour.specs.Formatting.{before, pad_byte};
ghost use Rattle.colour.specs.Machine.{scan};
ghost use Rattle.scanning.specs.Resting.{is_resting};
ghost use Rattle.scanning.specs.Room.{Searchable};
ghost use Rattle.measure.specs.Measures.{grown, behind_padding, Measurable};

use super::{Eye, Measure};
use colour::Scan;
use scanning::skipping::rests;
use scanning::step;
use widths::Rule;
use words::{Alignment, Padding};

pub fn pad_byte(z: Padding) -> u8
    ensures { result ≡ pad_byte z }
{
    match z {
        Padding::Space => b' ',
        Padding::Zero => b'0',
    }
}

// How much of n bytes of padding stands before the text.
pub fn before_text(a: Alignment, n: usize) -> usize
    ensures { (result ≡ before a n) × (result ≤ n) }
{
    match a {
        Alignment::Left => 0,
        Alignment::Center => n / 2,
        Alignment::Right => n,
    }
}

// The measure of what a measures, then n bytes of padding.
pub(crate) fn pad(a: Measure, z: Padding, n: usize) -> Measure
    requires { Measurable a n }
    ensures { result ≡ grown a (replicate n (pad_byte z)) }
{
    if n == 0 {
        return a;
    }
    let u = scan_padding(a.scan, z, n);
    Measure {
        scan: u,
        eye: eye_behind(a.eye, u),
        count: a.count + n,
        len: a.len + n,
    }
}

// The eye behind padding after which the search is u: a byte of it that is seen ends what has begun, and one that is not goes on with a sequence.
// Other ASCII that is seen ends it alike.
pub(crate) fn eye_behind(e: Eye, u: Scan) -> Eye
    ensures { result ≡ behind_padding e (is_resting u.state u.held) }
{
    match e.rule {
        Rule::Characters => e,
        Rule::Places => places_behind(e, rests(u)),
    }
}

fn places_behind(e: Eye, rests: bool) -> Eye
    requires { e.rule ≡ Rule.Places }
    ensures { result ≡ behind_padding e rests }
{
    if rests {
        return Eye {
            rule: Rule::Places,
            awaited: 0,
            bits: 0,
        };
    }
    e
}

// A `0` may go on with a sequence that has begun: only where none has is the padding passed over.
fn scan_padding(t: Scan, z: Padding, n: usize) -> Scan
    requires { Searchable t n }
    ensures { result ≡ scan t (replicate n (pad_byte z)) }
{
    if rests(t) {
        return t;
    }
    let b = pad_byte(z);
    let mut u = t;
    for _ in 0..n {
        u = step(u, b);
    }
    u
}
