// A measure, and a text more.
ghost use Rattle.std.specs.Prelude.{◌≡◌, true, cond, ◌+◌, ◌<◌, ◌^◌, eqb, length};
ghost use Rattle.characters.specs.Characters.{chars, has};
ghost use Rattle.colour.specs.Machine.{scan};
ghost use Rattle.colour.specs.Sequences.{esc};
ghost use Rattle.scanning.specs.Resting.{is_resting};
ghost use Rattle.scanning.specs.Room.{Searchable};
ghost use Rattle.measure.specs.Measures.{nothing, behind_padding, is_plain, grown, Measurable};

use super::padding::eye_behind;
use super::seeing::see;
use super::{Eye, Measure};
use characters::{Counted, count_chars};
use colour::Scan;
use scanning::skipping::{rests, scan_text};
use widths::Rule;

// Nothing, measured by a rule.
pub fn none(rule: Rule) -> Measure
    ensures { result ≡ nothing rule }
{
    Measure {
        scan: Scan::default(),
        eye: Eye {
            rule,
            awaited: 0,
            bits: 0,
        },
        count: 0,
        len: 0,
    }
}

// Bytes up to which a text is looked at one by one before all else: many texts of a line are short and plain, and need no more. Longer ones are counted
// faster by blocks.
const SHORT: usize = 8;

// The measure of what a measures, then the text s.
pub(crate) fn add(a: Measure, s: &[u8]) -> Measure
    requires { Measurable a (length s.now) }
    ensures { result ≡ grown a s.now }
{
    if s.len() <= SHORT && rests(a.scan) && is_plain(s) {
        return add_plain(a, s);
    }
    add_any(a, s)
}

// Whether s is ASCII without byte 27.
fn is_plain(s: &[u8]) -> bool
    ensures { result ≡ is_plain s.now }
{
    s.iter().all(|&b| b < 0x80 && b != 27)
}

// The measure with a plain text more, where no sequence has begun: it is all seen, and each byte counts one.
fn add_plain(a: Measure, s: &[u8]) -> Measure
    requires small { Measurable a (length s.now) }
    requires held_value { (is_resting a.scan.state a.scan.held ≡ true) × (is_plain s.now ≡ true) }
    ensures { result ≡ grown a s.now }
{
    let n = s.len();
    Measure {
        eye: eye_past(a.eye, a.scan, n),
        count: a.count + n,
        len: a.len + n,
        ..a
    }
}

// The eye behind n bytes of a plain text.
fn eye_past(e: Eye, t: Scan, n: usize) -> Eye
    ensures { result ≡ cond (eqb n 0) e (behind_padding e (is_resting t.state t.held)) }
{
    if n == 0 {
        return e;
    }
    eye_behind(e, t)
}

// The measure with any text more.
fn add_any(a: Measure, s: &[u8]) -> Measure
    requires { Measurable a (length s.now) }
    ensures { result ≡ grown a s.now }
{
    let c = count_chars(s, 27);
    let u = scan_found(a.scan, s, c.met);
    match a.eye.rule {
        Rule::Characters => Measure {
            scan: u,
            count: a.count + c.chars,
            len: a.len + s.len(),
            ..a
        },
        Rule::Places => add_places(a, s, c, u),
    }
}

// The same by the places rule, where s was counted as c and u is the search after it.
fn add_places(a: Measure, s: &[u8], c: Counted, u: Scan) -> Measure
    requires small { Measurable a (length s.now) }
    requires rule_value { (a.eye.rule ≡ Rule.Places) × (u ≡ scan a.scan s.now) }
    requires chars_value { (c.chars ≡ chars s.now) × (c.met ≡ has esc s.now) }
    ensures { result ≡ grown a s.now }
{
    let w = see(a.scan, a.eye.awaited, a.eye.bits, s, c);
    let p = w.pending;
    Measure {
        scan: u,
        eye: Eye {
            rule: Rule::Places,
            awaited: p.awaited,
            bits: p.bits,
        },
        count: a.count + c.chars + w.wide,
        len: a.len + s.len(),
    }
}

// The search after s, in which byte 27 was met or not: without it the search stays as it is where no sequence has begun.
fn scan_found(t: Scan, s: &[u8], met: bool) -> Scan
    requires s_bound { Searchable t (length s.now) }
    requires met_value { met ≡ has esc s.now }
    ensures { result ≡ scan t s.now }
{
    if !met && rests(t) {
        return t;
    }
    scan_text(t, s)
}
