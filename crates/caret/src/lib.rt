// A place of a text, shown to a person: the line of the text that holds the place, and below it a caret.
#![tactic(auto)]

ghost use Rattle.std.specs.Prelude.{◌≡◌, ◌≤◌, ◌<◌, ◌+◌, length};
ghost use Rattle.buffer.specs.Buffer.{put_at, Puts};
ghost use Rattle.caret.specs.Caret.{line_from, line_to, is_control, ends_control, harmless, harmless_behind, shown_line, caret_line};

use buffer::{fill, put};
use characters::count_chars;

// Where the line begins that holds the place p: behind the last newline before it.
fn line_from(t: &[u8], p: usize) -> usize
    requires { p ≤ length t.now }
    ensures { (result ≡ line_from t.now p) × (result ≤ p) }
{
    match t[..p].iter().rposition(|b| *b == b'\n') {
        Some(i) => i + 1,
        None => 0,
    }
}

// Where it ends: before the first newline from the place on. So a newline at the place is not shown, and the caret stands behind the line.
fn line_to(t: &[u8], p: usize) -> usize
    requires { p ≤ length t.now }
    ensures { (result ≡ line_to t.now p) × (p ≤ result) × (result ≤ length t.now) }
{
    match t[p..].iter().position(|b| *b == b'\n') {
        Some(i) => p + i,
        None => t.len(),
    }
}

fn is_control(b: u8) -> bool
    ensures { result ≡ is_control b }
{
    b.is_ascii_control()
}

fn ends_control(before: u8, b: u8) -> bool
    ensures { result ≡ ends_control before b }
{
    before == 0xC2 && (0x80..=0x9F).contains(&b)
}

// The byte b behind another as it is shown.
fn harmless_byte(before: u8, b: u8) -> u8
    ensures { result ≡ harmless before b }
{
    if is_control(b) {
        return b'?';
    }
    if ends_control(before, b) {
        return 0xBF;
    }
    b
}

// Writes the text to the front of `out` as it is shown.
fn put_harmless(text: &[u8], out: &mut [u8])
    requires { length text.now ≤ length out.old }
    ensures { out.new ≡ put_at out.old 0 (harmless_behind 0 text.now) }
{
    let mut before = 0;
    // by a place of `out` (c): of what `iter_mut` beside `zip` writes, a proof knows nothing
    for (i, b) in text.iter().enumerate() {
        out[i] = harmless_byte(before, *b);
        before = *b;
    }
}

// Writes the line of t that holds the place p to the front of `out`, with a newline, and returns its length.
pub fn put_line(t: &[u8], p: usize, out: &mut [u8]) -> usize
    requires { (p ≤ length t.now) × (length t.now < length out.old) }
    ensures puts { Puts out.old out.new 0 (shown_line t.now p) result }
    ensures within { result ≤ length out.old }
{
    let from = line_from(t, p);
    let to = line_to(t, p);
    put_harmless(&t[from..to], out);
    put(out, to - from, b"\n")
}

// Writes the caret below that place likewise.
pub fn put_caret(t: &[u8], p: usize, out: &mut [u8]) -> usize
    requires { (p ≤ length t.now) × (p + 2 ≤ length out.old) }
    ensures puts { Puts out.old out.new 0 (caret_line t.now p) result }
    ensures within { result ≤ length out.old }
{
    let from = line_from(t, p);
    // the count alone is asked for, and not the search for a byte that comes with it
    let columns = count_chars(&t[from..p], b'\n').chars;
    let i = fill(out, 0, columns, b' ');
    put(out, i, b"^\n")
}
