// What a format adds to a text, known from the measure of the text.
ghost use Rattle.std.specs.Prelude.{◌≡◌, cond, ◌-◌, ◌<◌, ◌^◌};
ghost use Rattle.measure.specs.Measures.{inserted_in, padding_in};

use super::Measure;
use colour::{Format, Settings};
use prefix::length::prefix_len;

// The bytes that the format inserts after the resets of a text measured as x.
pub fn inserted_in(s: Settings, f: Format, x: Measure) -> usize
    requires { x.scan.resets < 2 ^ 58 }
    ensures { result ≡ inserted_in s f x }
{
    x.scan.resets * prefix_len(s, f.look)
}

// The padding that the format gives to a text measured as x, into which n bytes are inserted.
pub fn padding_in(s: Settings, f: Format, x: Measure, n: usize) -> usize
    ensures { result ≡ padding_in s f x n }
{
    let seen = x.count.saturating_sub(x.scan.sequences);
    let due = f.width.saturating_sub(seen);
    due.saturating_sub(against_padding(s.straight, n))
}

// How many of n bytes inserted count against the padding: all in the crate's mode, none in straight mode. The mode is a `bool` (d): a yes or no, as `Settings` has it.
fn against_padding(straight: bool, n: usize) -> usize
    ensures { result ≡ cond straight 0 n }
{
    if straight {
        return 0;
    }
    n
}
