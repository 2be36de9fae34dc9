// The prefix of a look: the colour sequence that switches its styles and its colour on.
#![tactic(auto)]

ghost use Rattle.std.specs.Prelude.{◌≡◌, ◌++◌, ◌+◌, ◌<◌, ◌≤◌, length, take};
ghost use Rattle.colour.specs.Looks.{foreground, prefix, ink_codes};
ghost use Rattle.prefix.specs.Opening.{between, codes_from, sequence_ended, Coded};

use colour::Look;
use words::Color;

pub mod length;

// "the whole ends with the reset, bytes 27 91 48 109": what switches styles and a colour off again.
pub const RESET: [u8; 4] = *b"\x1b[0m";

// A code is a digit for a style and two for a colour. The second table is looked up by the colour, for which a `const` would be built on the stack.
const STYLES: [u8; 5] = *b"12439";

static FOREGROUND: [[u8; 2]; 10] = [
    *b"30", *b"31", *b"32", *b"33", *b"34", *b"35", *b"36", *b"37", *b"90", *b"97",
];

// Writes the prefix of a look at the front of `into`, and returns its length: at most 15, and 0, the length of no bytes (d), where no colour or style applies.
// It is built in a lent buffer, code after code (d): a struct that holds it would be handed on, and copied, code by code.
pub fn put_prefix(k: Look, into: &mut [u8]) -> usize
    requires { 16 ≤ length into.old }
    ensures { (result ≡ length (prefix k)) × ((take result into.new ≡ prefix k) × (length into.new ≡ length into.old)) }
{
    let s = k.styles;
    into[0] = 27;
    let mut n = 1;
    for (on, code) in [
        (s.bold, STYLES[0]),
        (s.dimmed, STYLES[1]),
        (s.underline, STYLES[2]),
        (s.italic, STYLES[3]),
        (s.strike, STYLES[4]),
    ] {
        n = with_style(into, n, on, code);
    }
    n = with_ink(into, n, k.ink);
    ended(into, n)
}

// Writes the code of a style after the first n bytes, where the style applies, and returns the place after it.
#[inline(always)]
fn with_style(into: &mut [u8], n: usize, on: bool, code: u8) -> usize
    requires { (1 ≤ n) × (n + 2 ≤ length into.old) }
    ensures { Coded into.old into.new n result on code }
{
    if on {
        into[n] = separator(n);
        into[n + 1] = code;
        return n + 2;
    }
    n
}

// Writes the code of the colour after the first n bytes, where one applies, and returns the place after it.
#[inline(always)]
fn with_ink(into: &mut [u8], n: usize, ink: Option<Color>) -> usize
    requires { n + 3 ≤ length into.old }
    ensures { (take result into.new ≡ take n into.old ++ codes_from (between n) (ink_codes ink)) × ((n ≤ result) × (result ≤ n + 3)) }
{
    let Some(c) = ink else {
        return n;
    };
    let [tens, units] = foreground(c);
    into[n] = separator(n);
    into[n + 1] = tens;
    into[n + 2] = units;
    n + 3
}

// The code of a colour.
#[tactic(auto, unfolding(colour::specs::Looks::foreground))]
fn foreground(c: Color) -> [u8; 2]
    ensures { result ≡ foreground c }
{
    FOREGROUND[c as usize]
}

// Writes the `m` that ends the sequence after the first n bytes, and returns how long it is; 0, as above (d), where byte 27 stands alone.
fn ended(into: &mut [u8], n: usize) -> usize
    requires { (1 ≤ n) × (n < length into.old) }
    ensures { (take result into.new ≡ sequence_ended (take n into.old)) × (result ≡ length (sequence_ended (take n into.old))) }
{
    if n == 1 {
        return 0;
    }
    into[n] = b'm';
    n + 1
}

// What stands before a code that n bytes stand before: `[` after byte 27 alone, else `;`.
#[tactic(auto, unfolding(crate::specs::Opening::between))]
fn separator(n: usize) -> u8
    ensures { result ≡ between n }
{
    if n == 1 { b'[' } else { b';' }
}
