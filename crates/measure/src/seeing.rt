// The wide characters that are seen of a text, which the places rule alone counts: bytes of colour sequences are not seen.
ghost use Rattle.std.specs.Prelude.{◌≡◌, true, ◌+◌, ◌<◌, ◌^◌, length};
ghost use Rattle.characters.specs.Characters.{chars, has};
ghost use Rattle.widths.specs.Fitting.{Fits};
ghost use Rattle.colour.specs.declared.State.TheVariants.{Outside};
ghost use Rattle.colour.specs.Machine.{act_of};
ghost use Rattle.colour.specs.Sequences.{esc};
ghost use Rattle.colour.specs.Texts.{Free};
ghost use Rattle.colour.specs.Seeing.{let_go, looked_at, seen_after};
ghost use Rattle.scanning.specs.Room.{Searchable};
ghost use Rattle.measure.specs.Measures.{let_go_by, begun_with};

use super::Eye;
use characters::Counted;
use colour::{Act, Scan, State};
use scanning::skipping::rests;
use scanning::{act_of, step};
use widths::counting::{advance, begun_by};
use widths::table::run_text;
use widths::{Pending, Rule, Wides};

// Bytes that were held and begin no sequence are let go. They are ASCII, so that no character has begun behind them.
fn let_go(held: usize, w: Wides) -> Wides
    ensures { result ≡ let_go held w }
{
    if held == 0 {
        return w;
    }
    Wides {
        pending: Pending::default(),
        ..w
    }
}

// The eye behind bytes that were held and are let go.
pub(crate) fn eye_let_go(e: Eye, held: usize) -> Eye
    ensures { result ≡ let_go_by e held }
{
    match e.rule {
        Rule::Characters => e,
        Rule::Places => places_let_go(e, held),
    }
}

// Beside `places_behind` (d): each is one line of its definition.
fn places_let_go(e: Eye, held: usize) -> Eye
    requires { e.rule ≡ Rule.Places }
    ensures { result ≡ let_go_by e held }
{
    if held == 0 {
        return e;
    }
    Eye {
        rule: Rule::Places,
        awaited: 0,
        bits: 0,
    }
}

// One byte more, where the search is t.
fn look(t: Scan, w: Wides, b: u8) -> Wides
    requires { Fits w.pending × (w.wide + 1 < 2 ^ 62) }
    ensures { result ≡ looked_at (act_of t.state b) t.held w b }
{
    match act_of(t.state, b) {
        Act::Text => advance(let_go(t.held, w), b),
        Act::Esc => let_go(t.held, w),
        Act::More(_) | Act::Done | Act::Reset => w,
    }
}

// The text s more, byte by byte.
fn see_bytes(t: Scan, w: Wides, s: &[u8]) -> Wides
    requires fits { Fits w.pending × (w.wide + length s.now < 2 ^ 60) }
    requires s_bound { Searchable t (length s.now) }
    ensures { result ≡ seen_after t w s.now }
{
    let mut u = t;
    let mut v = w;
    for &b in s {
        v = look(u, v, b);
        u = step(u, b);
    }
    v
}

// The text s more. The search and what has begun are handed over in single numbers: a struct that is lent to a call
// is kept in memory all the way, also where there is no such call (b). What is free of colour is told by a `bool` (d): two functions would take the same
// numbers and make the same `Wides` of them.
fn walk(free: bool, q: State, held: usize, awaited: u8, bits: u16, s: &[u8]) -> Wides
    requires q_value { (free ≡ true → (q ≡ Outside) × ((held ≡ 0) × Free s.now)) × (held + length s.now < 2 ^ 60) }
    requires fits { Fits (record { awaited = awaited; bits = bits }) }
    ensures { result ≡ seen_after (record { state = q; held = held; sequences = 0; resets = 0 }) (begun_with awaited bits) s.now }
{
    let w = Wides {
        pending: Pending { awaited, bits },
        wide: 0,
    };
    if free {
        return run_text(w, s);
    }
    let t = Scan {
        state: q,
        held,
        sequences: 0,
        resets: 0,
    };
    see_bytes(t, w, s)
}

// The text s more, of which it is known how many characters it has and whether byte 27 is in it. Where every byte begins a character none is wide,
// and the last one alone may have begun one: so ASCII needs no table.
pub(crate) fn see(t: Scan, awaited: u8, bits: u16, s: &[u8], c: Counted) -> Wides
    requires chars_value { (c.chars ≡ chars s.now) × (c.met ≡ has esc s.now) }
    requires fits { Fits (record { awaited = awaited; bits = bits }) × (t.held + length s.now < 2 ^ 60) }
    ensures { result ≡ seen_after t (begun_with awaited bits) s.now }
{
    let n = s.len();
    if n == 0 {
        return Wides {
            pending: Pending { awaited, bits },
            wide: 0,
        };
    }
    if c.met || !rests(t) {
        return walk(false, t.state, t.held, awaited, bits, s);
    }
    if c.chars < n {
        return walk(true, t.state, t.held, awaited, bits, s);
    }
    Wides {
        pending: begun_by(s[n - 1]),
        wide: 0,
    }
}
