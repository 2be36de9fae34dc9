// The check that a text is UTF-8, by Unicode's table 3-7. ASCII is told by the greatest byte of a block. Beyond it a block is checked
// without going from character to character: whether a byte may stand at its place is told by the three bytes before it.
#![tactic(auto)]

ghost use Rattle.std.specs.Prelude.{◌≡◌, [], ◌+◌, ◌-◌, ◌<◌, ◌≤◌, ltb, length};
ghost use Rattle.utf8.specs.Utf8.{awaited, valid};
ghost use Rattle.utf8.specs.Windows.{reached, top_of};

use ascii::greatest;
use blocks::sound_from;
use whole::characters_to;

mod ascii;
mod blocks;
pub mod ones;
mod whole;
mod windows;

// Bytes of ASCII that are passed in one step at the front of a text.
const STRIDE: usize = 128;

// Bytes that have room for a block and for the characters before it, which take six at most.
const ROOM: usize = 38;

// Whether `s` is ASCII.
pub fn is_ascii(s: &[u8]) -> bool
    ensures { result ≡ ltb (top_of s.now) 0x80 }
{
    greatest(s) < 0x80
}

// Whether `s` is UTF-8. By blocks and not by std's `from_utf8` (b): Rust's, which goes by characters, takes 1.43 to 5.33 times as long (docs/SPEED.md).
pub fn is_utf8(s: &[u8]) -> bool
    ensures { result ≡ valid s.now }
{
    let i = ascii_end(s);
    if s.len() - i < STRIDE && greatest(&s[i..]) < 0x80 {
        return true;
    }
    let Some(first) = characters_to(s, i, start(s.len(), i)) else {
        return false;
    };
    s.len() <= first || sound_from(s, first)
}

// Where the blocks of ASCII at the front of a text end.
fn ascii_end(s: &[u8]) -> usize
    ensures { (result ≤ length s.now) × (reached s.now result ≡ awaited []) }
{
    let mut i = 0;
    for stride in s.chunks_exact(STRIDE) {
        if 0x7F < greatest(stride) {
            return i;
        }
        i += STRIDE;
    }
    i
}

// Up to where to go character by character: a block needs three bytes before it, and a text that has no room for one goes so to
// its end.
fn start(n: usize, i: usize) -> usize
    requires { i ≤ n }
    ensures { (n < i + 38 → result ≡ n) × (i + 38 ≤ n → result ≡ i + 3) }
{
    if n - i < ROOM { n } else { i + 3 }
}
