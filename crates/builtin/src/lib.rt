// The built-in templates.
#![tactic(auto)]

ghost use Rattle.std.specs.Prelude.{◌≡◌, ◌++◌, ◌+◌, ◌<◌, ◌≤◌, length};
ghost use Rattle.buffer.specs.Bytes.{bytes};
ghost use Rattle.builtin.specs.Builtins.{builtin_text};
ghost use Rattle.builtin.specs.Choices.{style_of, is_yes, chosen};
ghost use Rattle.builtin.specs.Rows.{from_two, template_row, row_text};
ghost use Rattle.buffer.specs.Buffer.{Writes};

// The two sets of them.
#[derive(Clone, Copy)]
pub enum Style {
    Default,
    OneLine,
}

// The eight templates one after another, with their places and not as slices (a): a table of addresses would be data, and the archive promises to have none; `\xe2\x94\x94\xe2\x94\x80` is `└─`.
const TEXT: [u8; 214] = *b"{L} {s}\
    {t} {L} {s}\
    {L} {s}\n\xe2\x94\x94\xe2\x94\x80 {m} @ {F}:{l}\
    {t} {L} {s}\n\xe2\x94\x94\xe2\x94\x80 {m} @ {F}:{l}\
    {[{L}]%bold} {s}\
    {t} {[{L}]%bold} {s}\
    {[{L}]%bold} {s} {({c:bold} {fff}:{l:1})%dimmed}\
    {t} {[{L}]%bold} {s} {({c:bold} {fff}:{l:1})%dimmed}";

// Where each template begins in it, and below how long each is: two rows and no pairs (d), since the rule of the table is computed by rows.
const STARTS: [usize; 8] = [0, 7, 18, 46, 78, 94, 114, 162];

// How long each is.
const LENGTHS: [usize; 8] = [7, 11, 28, 32, 16, 20, 48, 52];

// The row of a template among the four of a style.
fn from_two(first: usize, location: bool, timestamp: bool) -> usize
    requires { first ≤ 4 }
    ensures { result ≡ first + from_two location timestamp }
{
    if location {
        if timestamp {
            return first + 3;
        }
        return first + 2;
    }
    if timestamp {
        return first + 1;
    }
    first
}

// The row of a template in the table.
fn row_of(style: Style, location: bool, timestamp: bool) -> usize
    ensures { result ≡ template_row style location timestamp }
{
    match style {
        Style::Default => from_two(0, location, timestamp),
        Style::OneLine => from_two(4, location, timestamp),
    }
}

// The length of the template of the row k, so that nothing is written where the whole does not fit.
fn length_of(k: usize) -> usize
    requires { k < 8 }
    ensures { (result ≡ length (row_text k)) × (result ≤ 64) }
{
    LENGTHS[k]
}

// Writes the template of the row k where it fits, and returns its length.
fn put_row(k: usize, out: &mut [u8]) -> usize
    requires { k < 8 }
    ensures { Writes out.old out.new (row_text k) result }
{
    let n = length_of(k);
    if out.len() < n {
        return n;
    }
    let text = TEXT;
    let from = STARTS[k];
    let to = from + n;
    buffer::put(out, 0, &text[from..to])
}

// The same for a host formatter.
fn put_row_for_host(k: usize, out: &mut [u8]) -> usize
    requires { k < 8 }
    ensures { Writes out.old out.new (row_text k ++ bytes " (HOST)") result }
{
    let n = length_of(k) + 7;
    if out.len() < n {
        return n;
    }
    let at = put_row(k, out);
    buffer::put(out, at, b" (HOST)")
}

// Writes a built-in template to the front of the buffer where it fits, and returns its length.
fn put_builtin(style: Style, location: bool, timestamp: bool, host: bool, out: &mut [u8]) -> usize
    ensures { Writes out.old out.new (builtin_text style location timestamp host) result }
{
    let k = row_of(style, location, timestamp);
    if host {
        return put_row_for_host(k, out);
    }
    put_row(k, out)
}

// Which set a caller's number means.
fn style_of(n: u8) -> Style
    ensures { result ≡ style_of n }
{
    if n == 0 {
        return Style::Default;
    }
    Style::OneLine
}

// What a caller's number answers.
fn is_yes(n: u8) -> bool
    ensures { result ≡ is_yes n }
{
    n != 0
}

// Writes the one that a caller's numbers choose. Every number chooses one, so that nothing is asked of the caller.
pub fn put_chosen(style: u8, location: u8, timestamp: u8, host: u8, out: &mut [u8]) -> usize
    ensures { Writes out.old out.new (chosen style location timestamp host) result }
{
    put_builtin(
        style_of(style),
        is_yes(location),
        is_yes(timestamp),
        is_yes(host),
        out,
    )
}
