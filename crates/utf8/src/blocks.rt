// A text by blocks of 32 bytes.
ghost use Rattle.std.specs.Prelude.{◌≡◌, true, false, ◌+◌, ◌-◌, ◌≤◌, length, get_or};
ghost use Rattle.utf8.specs.Utf8.{valid};
ghost use Rattle.utf8.specs.Windows.{Told, Unbroken, due_after};

use super::ascii::greatest;
use super::windows::{due, flaws, flaws_of_two};

// Bytes in a block. Where accents are few a longer one would seldom be ASCII as a whole; a shorter one has too little to do.
const BLOCK: usize = 32;

// Whether a text that is not broken up to `from` is UTF-8. The last block overlaps the one before it, so that it is whole, too.
// A `for` by steps would leave that one to a call of its own behind the loop (d).
pub(crate) fn sound_from(s: &[u8], from: usize) -> bool
    requires { (35 ≤ length s.now) × (3 ≤ from) × (from ≤ length s.now) × Told s.now from }
    ensures { result ≡ valid s.now }
{
    let mut i = from;
    while i < s.len() {
        let at = i.min(s.len() - BLOCK);
        if !is_sound(s, at) {
            return false;
        }
        i = at + BLOCK;
    }
    due_at(s, s.len()) == 0
}

// Whether no byte of the block at i breaks the text. What its greatest byte rules out is not looked for.
fn is_sound(s: &[u8], i: usize) -> bool
    requires { (3 ≤ i) × (i + 32 ≤ length s.now) }
    ensures { (result ≡ true → Unbroken s.now i (i + 32)) × (result ≡ false → valid s.now ≡ false) }
{
    let top = greatest(&s[i..i + BLOCK]);
    if top < 0x80 {
        return due_at(s, i) == 0;
    }
    if top < 0xE0 && greatest(&s[i - 3..i]) < 0xE0 {
        return flaws_of_two(s, i - 3, BLOCK) == 0;
    }
    flaws(s, i - 3, BLOCK) == 0
}

// How many of the three bytes before i ask that the next one go on with a character.
fn due_at(s: &[u8], i: usize) -> u8
    requires { (3 ≤ i) × (i ≤ length s.now) }
    ensures { result ≡ due_after (get_or s.now (i - 3) 0) (get_or s.now (i - 2) 0) (get_or s.now (i - 1) 0) }
{
    due(s[i - 3], s[i - 2], s[i - 1])
}
