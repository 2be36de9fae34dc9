// A quick look before the table is built: many templates beyond ASCII have no letter there, and the built-in ones draw with `└─`. All is said in numbers and
// without a branch, as in utf8 (b), so that the compiler looks at many places in one step.
ghost use Rattle.std.specs.Prelude.{◌≡◌, true, false, ◌+◌, ◌≤◌, ◌<◌, eqb, length};
ghost use Rattle.letters.specs.Doubting.{doubt_of, doubt_in, Clear, Looked};

use utf8::ones::below;

// Places that are looked at in one step. Templates are short, and of a longer block the rest would be gone through byte by byte.
const BLOCK: usize = 8;

// Whether t has nothing to mark, for all that a look at two bytes at a time can tell.
pub fn is_unmarked(t: &[u8]) -> bool
    ensures { result ≡ eqb (doubt_in t.now) 0 }
{
    let Some((last_byte, before)) = t.split_last() else {
        return true;
    };
    if 0 < doubt(*last_byte, 0) {
        return false;
    }
    let last = before.len();
    if last < BLOCK {
        return doubts(t, 0, last) == 0;
    }
    is_clear(t, last)
}

// Whether no byte before the last leaves a doubt. The last block overlaps the one before it, so that it is whole, too. A `for` by steps would
// leave that one to a call of its own behind the loop (d).
fn is_clear(t: &[u8], last: usize) -> bool
    requires { (8 ≤ last) × (last < length t.now) }
    ensures { (result ≡ true → Clear t.now 0 last) × (result ≡ false → 0 < doubt_in t.now) }
{
    let mut i = 0;
    while i < last {
        let at = i.min(last - BLOCK);
        if 0 < doubts(t, at, BLOCK) {
            return false;
        }
        i = at + BLOCK;
    }
    true
}

// 0 where none of the n bytes from `from` on leaves a doubt. The loop counts from 0 up to n, whose value the compiler sees: from `from` up to `from + n` it
// looks at one place at a time, and the look takes 3.5 times as long (b).
fn doubts(t: &[u8], from: usize, n: usize) -> u8
    requires { from + n < length t.now }
    ensures { Looked t.now from (from + n) result }
{
    let mut worst = 0;
    for k in 0..n {
        worst = worst.max(doubt(t[from + k], t[from + k + 1]));
    }
    worst
}

// 1 where a, with b behind it, begins a character of several bytes, unless it is one from U+2500 up to U+2BFF.
fn doubt(a: u8, b: u8) -> u8
    ensures { result ≡ doubt_of a b }
{
    below(0xBF, a) & (below(a, 0xE2) | below(0xE2, a) | below(b, 0x94) | below(0xAF, b))
}
