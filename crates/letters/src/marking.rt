// Byte by byte: whether it belongs to a letter beyond ASCII, and as what it is seen.
ghost use Rattle.std.specs.Prelude.{◌≡◌, ◌≤◌, ◌<◌, length, drop};
ghost use Rattle.letters.specs.Marked.{opens_letter, left_in, letter_in, seen_as};

use super::table::ENDS;
use points::decoding::{byte_at, point, size_of};
use points::search::is_among;
use runs::MARK;

// Whether the character that has the byte at i is a letter beyond ASCII, where `left` bytes of the one before are left from i on.
pub(crate) fn letter_in(t: &[u8], i: usize, left: usize, letter: bool) -> bool
    requires { i < length t.now }
    ensures { result ≡ letter_in left letter (drop i t.now) }
{
    if left == 0 {
        opens_letter(t, i)
    } else {
        letter
    }
}

// How many bytes of that character are left from i on.
pub(crate) fn left_in(t: &[u8], i: usize, left: usize) -> usize
    requires { i < length t.now }
    ensures { (result ≡ left_in left (drop i t.now)) × (1 ≤ result) }
{
    if left == 0 { size_of(t[i]) } else { left }
}

// Whether a letter beyond ASCII begins at i.
fn opens_letter(t: &[u8], i: usize) -> bool
    requires { i < length t.now }
    ensures { result ≡ opens_letter (drop i t.now) }
{
    let a = t[i];
    if a < 0xC0 {
        return false;
    }
    is_among(
        &ENDS,
        point(a, byte_at(t, i + 1), byte_at(t, i + 2), byte_at(t, i + 3)),
    )
}

pub(crate) fn seen_as(letter: bool, b: u8) -> u8
    ensures { result ≡ seen_as letter b }
{
    if letter { MARK } else { b }
}
