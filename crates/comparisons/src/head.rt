// The head of a comparison: the lines of a part of the message, joined by newlines, so that a `\r` before one is left out.
ghost use Rattle.std.specs.Prelude.{◌≡◌, ◌≤◌, length};
ghost use Rattle.buffer.specs.Bytes.{part};
ghost use Rattle.comparisons.specs.Comparisons.{lines};
ghost use Rattle.comparisons.specs.Places.{head_text, on_new_lines};

use super::line_at;
use measure::sink::Sink;

// The head from place i up to place e.
pub fn write_head<S: Sink>(d: &[u8], i: usize, e: usize, sink: S, out: &mut [u8]) -> S
    requires i_le_e { (i ≤ e) × (e ≤ length d.now) }
    requires fits { S.fits sink out.old (head_text i e d.now) }
    ensures value { result ≡ S.after sink (head_text i e d.now) }
    ensures buffer { out.new ≡ S.left sink out.old (head_text i e d.now) }
{
    if i == e {
        return sink;
    }
    let first = line_at(d, i, e);
    let rest = sink.take(&d[i..first.end], out);
    write_lines(d, first.next, e, rest, out)
}

// The lines from place i on, a newline before each. It is no `for` (d): it goes as `last_two` does, whose lines are the same.
fn write_lines<S: Sink>(d: &[u8], i: usize, e: usize, sink: S, out: &mut [u8]) -> S
    requires i_le_e { (i ≤ e) × (e ≤ length d.now) }
    requires fits { S.fits sink out.old (on_new_lines (lines (part i e d.now))) }
    ensures value { result ≡ S.after sink (on_new_lines (lines (part i e d.now))) }
    ensures buffer { out.new ≡ S.left sink out.old (on_new_lines (lines (part i e d.now))) }
{
    let mut k = i;
    let mut rest = sink;
    while k < e {
        let line = line_at(d, k, e);
        rest = rest.take(b"\n", out);
        rest = rest.take(&d[k..line.end], out);
        k = line.next;
    }
    rest
}
