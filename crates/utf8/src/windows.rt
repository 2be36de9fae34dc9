// Whether bytes may stand at their places, each told by the three bytes before it. All is said in numbers, 0 for what may be, and
// without a branch, so that the compiler looks at many places in one step (b).
ghost use Rattle.std.specs.Prelude.{◌≡◌, ℕ, ◌+◌, ◌-◌, ◌*◌, ◌/◌, ◌<◌, ◌≤◌, length, get_or};
ghost use Rattle.utf8.specs.Utf8.{Awaited, step};
ghost use Rattle.utf8.specs.Windows.{Follows, Judged, Checked, alike, less, due_after};

use super::ones::{below, goes_on};

// 0 where each of n bytes may stand at its place; the first of them comes three places after `from`. The loop counts from 0 up to n, a
// number that the compiler sees: over `from..from + n` it may look at one place at a time.
pub(crate) fn flaws(s: &[u8], from: usize, n: usize) -> u8
    requires { from + 3 + n ≤ length s.now }
    ensures { Checked s.now (from + 3) (from + 3 + n) result }
{
    let mut worst = 0;
    for k in 0..n {
        let i = from + k;
        worst = worst.max(flaw(s[i], s[i + 1], s[i + 2], s[i + 3]));
    }
    worst
}

// The same where no byte begins a character of more than two bytes. One function for both would take the test as a closure, and a clause on
// what the closure promises at which places, which is longer than the loop (d).
pub(crate) fn flaws_of_two(s: &[u8], from: usize, n: usize) -> u8
    requires n_in_bounds { from + 3 + n ≤ length s.now }
    requires by_index { (k : ℕ) → from ≤ k → k < from + 3 + n → get_or s.now k 0 < 0xE0 }
    ensures { Checked s.now (from + 3) (from + 3 + n) result }
{
    let mut worst = 0;
    for k in 0..n {
        let i = from + k;
        worst = worst.max(flaw_of_two(s[i + 2], s[i + 3]));
    }
    worst
}

// 0 where d may come after a, b and c.
fn flaw(a: u8, b: u8, c: u8, d: u8) -> u8
    ensures { (x : Awaited) → Follows a b c x → Judged result (step x d) }
{
    differ(due(a, b, c), goes_on(d))
        + overlong(d)
        + below(d, least_after(c))
        + below(most_after(c), d)
}

// 0 where d may come after c, neither above 0xDF nor the two bytes before them.
fn flaw_of_two(c: u8, d: u8) -> u8
    ensures { (a b : ℕ) (x : Awaited) → a < 0xE0 → b < 0xE0 → c < 0xE0 → d < 0xE0 → Follows a b c x → Judged result (step x d) }
{
    differ(below(0xBF, c), goes_on(d)) + overlong(d)
}

// How many of the bytes a, b and c ask that the next one go on with a character.
pub(crate) fn due(a: u8, b: u8, c: u8) -> u8
    ensures { result ≡ due_after a b c }
{
    below(0xEF, a) + below(0xDF, b) + below(0xBF, c)
}

// The least byte after c, as far as c tells: `E0 80` to `E0 9F` and `F0 80` to `F0 8F` would be overlong.
pub(crate) fn least_after(c: u8) -> u8
    ensures { result ≡ 0xA0 * alike c 0xE0 + 0x90 * alike c 0xF0 }
{
    if_is(c, 0xE0, 0xA0) + if_is(c, 0xF0, 0x90)
}

// The greatest: `ED A0` would begin a surrogate, `F4 90` lies above 10FFFF, and no byte above 0xF4 is used.
pub(crate) fn most_after(c: u8) -> u8
    ensures { result ≡ 0xF4 - 0x55 * alike c 0xED - 0x65 * alike c 0xF4 }
{
    0xF4 - if_is(c, 0xED, 0x55) - if_is(c, 0xF4, 0x65)
}

// The number `then` where c is `lead`, else 0.
fn if_is(c: u8, lead: u8, then: u8) -> u8
    ensures { result ≡ then * alike c lead }
{
    if c == lead { then } else { 0 }
}

// 1 for a byte that could only begin an overlong form of two bytes.
fn overlong(b: u8) -> u8
    ensures { result ≡ alike (b / 2) 0x60 }
{
    if b / 2 == 0x60 { 1 } else { 0 }
}

// 1 where two numbers differ.
fn differ(x: u8, y: u8) -> u8
    ensures { result ≡ 1 - alike x y }
{
    if x == y { 0 } else { 1 }
}
