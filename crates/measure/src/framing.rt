// What stands before a formatted text and after it, measured.
ghost use Rattle.std.specs.Prelude.{◌≡◌, ◌++◌, ◌+◌, ◌<◌, ◌≤◌, ◌^◌, replicate};
ghost use Rattle.colour.specs.Formatting.{prefix_in, pad_byte, ending};
ghost use Rattle.measure.specs.Measures.{grown, more, Longer, Measurable};

use super::Measure;
use super::padding::pad;
use super::seeing::eye_let_go;
use colour::{Format, Scan, Settings, State};
use prefix::RESET;
use prefix::length::prefix_len;

// The measure of what a measures, then the prefix and l bytes of padding. Only without a prefix can the padding go on with a
// sequence that has begun.
pub fn opened(a: Measure, s: Settings, f: Format, l: usize) -> Measure
    requires { Measurable a (l + 15) }
    ensures { result ≡ grown a (prefix_in s.colour f.look ++ replicate l (pad_byte f.padding)) }
{
    let n = prefix_len(s, f.look);
    if n == 0 {
        return pad(a, f.padding, l);
    }
    let b = sequence(a, n, 0);
    pad(b, f.padding, l)
}

// The measure of what c measures, then n bytes inserted, r bytes of padding and, where there is a prefix, the reset. The bytes
// inserted stand inside the text; they are counted here, and need no search, because each of them is a whole prefix after a reset.
pub fn closed(c: Measure, s: Settings, f: Format, n: usize, r: usize) -> Measure
    requires { Measurable c (n + (r + 4)) }
    ensures { result ≡ grown (more c n) (replicate r (pad_byte f.padding) ++ ending (prefix_in s.colour f.look)) }
{
    let d = longer(c, n);
    let e = pad(d, f.padding, r);
    if prefix_len(s, f.look) == 0 {
        return e;
    }
    sequence(e, RESET.len(), 1)
}

// The measure of what a measures with n bytes more in prefixes.
fn longer(a: Measure, n: usize) -> Measure
    requires { Measurable a n }
    ensures { result ≡ more a n }
{
    Measure {
        scan: Scan {
            sequences: a.scan.sequences + n,
            ..a.scan
        },
        count: a.count + n,
        len: a.len + n,
        ..a
    }
}

// The measure of what a measures, then one whole sequence of n bytes, a reset or not: its first byte ends whatever has begun, and
// none is open after it.
fn sequence(a: Measure, n: usize, resets: usize) -> Measure
    requires { Measurable a n × (resets ≤ 1) }
    ensures { Longer a n resets result }
{
    let t = a.scan;
    Measure {
        scan: Scan {
            state: State::Outside,
            held: 0,
            sequences: t.sequences + n,
            resets: t.resets + resets,
        },
        eye: eye_let_go(a.eye, t.held),
        count: a.count + n,
        len: a.len + n,
    }
}
