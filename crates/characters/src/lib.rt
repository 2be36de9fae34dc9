// The count of characters, and the search for a byte. The counter of a round is one byte wide, so that the compiler counts many bytes in one
// step.
#![tactic(auto)]

ghost use Rattle.std.specs.Prelude.{◌≡◌, true, cond, ◌+◌, ◌≤◌, length};
ghost use Rattle.characters.specs.Characters.{chars, has};

use utf8::ones::goes_on;

// Bytes in a round. With 256 the one-byte counter of `tally` could wrap; 128 is a multiple of what the compiler counts in one step.
const ROUND: usize = 128;

// How many characters a text has, and whether a byte is in it.
#[derive(Clone, Copy)]
pub struct Counted {
    pub chars: usize,
    pub met: bool,
}

// How many characters `s` has, and whether the byte b is in it: one pass for both. Each round but the last has the same length, which the compiler knows:
// with `chunks` the count takes 1.2 times as long (b).
pub fn count_chars(s: &[u8], b: u8) -> Counted
    ensures chars_value { result.chars ≡ chars s.now }
    ensures met_value { result.met ≡ has b s.now }
{
    let mut trailing = 0;
    let mut met = false;
    let mut rest = s;
    while let Some((round, others)) = rest.split_at_checked(ROUND) {
        let t = tally(round, b, met);
        trailing += usize::from(t.trailing);
        met = t.met;
        rest = others;
    }
    let last = tally(rest, b, met);
    Counted {
        chars: s.len() - (trailing + usize::from(last.trailing)),
        met: last.met,
    }
}

// How many of some bytes go on with a character, and whether the byte looked for was met, in them or before.
#[derive(Clone, Copy)]
struct Tallied {
    trailing: u8,
    met: bool,
}

// The bytes of a round, tallied: 128 at most, so that the counter does not wrap.
fn tally(round: &[u8], b: u8, before: bool) -> Tallied
    requires { length round.now ≤ 128 }
    ensures trailing_value { result.trailing + chars round.now ≡ length round.now }
    ensures met_value { result.met ≡ cond before true (has b round.now) }
{
    let mut trailing = 0;
    let mut met = before;
    for &x in round {
        trailing += goes_on(x);
        met |= x == b;
    }
    Tallied { trailing, met }
}
