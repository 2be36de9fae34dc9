// A text by whole characters, each told by its first byte.
ghost use Rattle.std.specs.Prelude.{◌≡◌, true, false, [], ◌∷◌, ◌+◌, ◌<◌, ◌≤◌, length};
ghost use Rattle.utf8.specs.Utf8.{awaited, broken, begun, forms, step};
ghost use Rattle.utf8.specs.Windows.{reached, Lives, Whole, EndsBy};

use super::ones::goes_on;
use super::windows::{least_after, most_after};

// The end of the characters from `from` on, the last of them the first that ends at `to` or after it, unless the text breaks before.
// It is no `for` (d): this walk alone goes by characters, and an iterator would hold it as its `next`.
pub(crate) fn characters_to(s: &[u8], from: usize, to: usize) -> Option<usize>
    requires { (from < to) × (to ≤ length s.now) × (reached s.now from ≡ awaited []) }
    ensures { EndsBy s.now to result }
{
    let mut i = from;
    while i < to {
        i = character_end(s, i)?;
    }
    Some(i)
}

// Where the character at i ends, if there is one.
fn character_end(s: &[u8], i: usize) -> Option<usize>
    requires { (i < length s.now) × (reached s.now i ≡ awaited []) }
    ensures { EndsBy s.now (i + 1) result }
{
    let a = s[i];
    let n = s.len() - i;
    if a < 0x80 {
        return Some(i + 1);
    }
    if a < 0xE0 {
        return (2 <= n && is_two(a, s[i + 1])).then_some(i + 2);
    }
    if a < 0xF0 {
        return (3 <= n && is_three(a, s[i + 1], s[i + 2])).then_some(i + 3);
    }
    (4 <= n && is_four(a, s[i + 1], s[i + 2], s[i + 3])).then_some(i + 4)
}

fn is_two(a: u8, b: u8) -> bool
    requires { (0x80 ≤ a) × (a < 0xE0) }
    ensures { Whole (a ∷ b ∷ []) result }
{
    goes_on(b) == 1 && 0xC2 <= a
}

fn is_three(a: u8, b: u8, c: u8) -> bool
    requires { (0xE0 ≤ a) × (a < 0xF0) }
    ensures { Whole (a ∷ b ∷ c ∷ []) result }
{
    goes_on(c) == 1 && goes_second(a, b)
}

fn is_four(a: u8, b: u8, c: u8, d: u8) -> bool
    requires { 0xF0 ≤ a }
    ensures { Whole (a ∷ b ∷ c ∷ d ∷ []) result }
{
    a <= 0xF4 && goes_on(d) == 1 && goes_on(c) == 1 && goes_second(a, b)
}

// Whether b may come second in a character of three or four bytes that a begins.
fn goes_second(a: u8, b: u8) -> bool
    requires { (0xE0 ≤ a) × (a ≤ 0xF4) }
    ensures { (result ≡ true → Lives (step (begun forms a) b)) × (result ≡ false → step (begun forms a) b ≡ broken) }
{
    goes_on(b) == 1 && least_after(a) <= b && b <= most_after(a)
}
