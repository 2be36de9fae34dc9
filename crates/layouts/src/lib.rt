// A comparison laid out: runs of text one after the other, each in a look of its own and without width, measured, counted and written. So a layout
// needs no buffer, and a sequence that begins in one run and ends in the next is measured as what it is.
#![tactic(auto)]

ghost use Rattle.std.specs.Prelude.{◌≡◌, ◌+◌, ◌<◌, ◌≤◌, ◌^◌, length, get_or};
ghost use Rattle.buffer.specs.Buffer.{Puts};
ghost use Rattle.measure.specs.Measures.{grown, Small};
ghost use Rattle.comparisons.specs.Places.{SpansWithin};
ghost use Rattle.layouts.specs.Runs.{run_of, bare_run, bold_run, red_run, green_run, bold_red_run, bold_green_run, no_run, runs_of, RunFits, is_left_out, run_text, laid_text};

use colour::{Format, Look, Settings};
use comparisons::Spans;
use dress::dress_bare;
use measure::Measure;
use measure::additions::inserted_in;
use measure::framing::{closed, opened};
use measure::growing::none;
use measure::sink::Place;
use prefix::length::prefix_len;
use text::{Text, write_text};
use words::{Alignment, Color, Padding, Styles};

pub mod text;

// A text in a look, and the place of the look's prefix; it is no slice of it, for the reason that `Text` gives.
#[derive(Clone, Copy)]
pub struct Run {
    pub format: Format,
    pub from: usize,
    pub to: usize,
    pub text: Text,
}

// The prefixes of the looks, one after the other: bold, red, green, bold red, bold green. By places in them, and dressed by `dress_bare` (b): a second caller of
// `dress` is no longer made a part of the first, and lines without a report took up to 1.10 times as long (docs/DECISIONS.md).
const PREFIXES: [u8; 28] = *b"\x1b[1m\x1b[31m\x1b[32m\x1b[1;31m\x1b[1;32m";

// How many runs a layout has.
const RUNS: usize = 17;

fn run_of(bold: bool, ink: Option<Color>, from: usize, to: usize, text: Text) -> Run
    ensures { result ≡ run_of bold ink from to text }
{
    let styles = Styles {
        bold,
        ..Styles::default()
    };
    Run {
        format: Format {
            width: 0,
            alignment: Alignment::Left,
            padding: Padding::Space,
            look: Look { styles, ink },
        },
        from,
        to,
        text,
    }
}

fn bare(x: Text) -> Run
    ensures { result ≡ bare_run x }
{
    run_of(false, None, 0, 0, x)
}

fn bold(x: Text) -> Run
    ensures { result ≡ bold_run x }
{
    run_of(true, None, 0, 4, x)
}

fn red(x: Text) -> Run
    ensures { result ≡ red_run x }
{
    run_of(false, Some(Color::Red), 4, 9, x)
}

fn green(x: Text) -> Run
    ensures { result ≡ green_run x }
{
    run_of(false, Some(Color::Green), 9, 14, x)
}

fn bold_red(x: Text) -> Run
    ensures { result ≡ bold_red_run x }
{
    run_of(true, Some(Color::Red), 14, 21, x)
}

fn bold_green(x: Text) -> Run
    ensures { result ≡ bold_green_run x }
{
    run_of(true, Some(Color::Green), 21, 28, x)
}

// The run k of the layout of a message that begins at `from`: the head, the title, and the two values below each other. It is asked for by its number and is
// no array (a): seventeen runs would stand on the stack, whose size is fixed.
fn run_at(from: usize, c: Spans, k: usize) -> Run
    requires { k < 17 }
    ensures { result ≡ get_or (runs_of from c) k no_run }
{
    let l = c.left;
    let r = c.right;
    match k {
        0 => bold(Text::Head(from, c.head)),
        1 => bare(Text::Fixed(0, 1)),
        2 => bold(Text::Fixed(1, 5)),
        3 => bare(Text::Fixed(5, 6)),
        4 => red(Text::Fixed(6, 12)),
        5 => bare(Text::Fixed(12, 15)),
        6 => green(Text::Fixed(15, 22)),
        7 => bare(Text::Fixed(22, 23)),
        8 => red(Text::Fixed(23, 24)),
        9 => red(Text::Part(l.from, l.begun)),
        10 => bold_red(Text::Part(l.begun, l.rest)),
        11 => red(Text::Part(l.rest, l.to)),
        12 => bare(Text::Fixed(24, 25)),
        13 => green(Text::Fixed(25, 26)),
        14 => green(Text::Part(r.from, r.begun)),
        15 => bold_green(Text::Part(r.begun, r.rest)),
        16.. => green(Text::Part(r.rest, r.to)),
    }
}

// A value's run is left out where it is empty. An empty head isn't: it gets its prefix and its reset.
#[tactic(auto, unfolding(crate::specs::Runs::is_left_out))]
fn is_left_out(x: Text) -> bool
    ensures { result ≡ is_left_out x }
{
    matches!(x, Text::Part(i, j) if i == j)
}

// Measures a run on top of `a`. It and `put_run` are no single function of a sink (d): a prefix is measured by its length alone, and a text that is written
// is dressed where it stands.
fn add_run(d: &[u8], s: Settings, r: Run, a: Measure) -> Measure
    requires run_fits { RunFits d.now r }
    requires small { (Small a) × (a.len + length (run_text s d.now r) < 2 ^ 57) }
    ensures { result ≡ grown a (run_text s d.now r) }
{
    if is_left_out(r.text) {
        return a;
    }
    let f = r.format;
    if prefix_len(s, f.look) == 0 {
        return write_text(d, r.text, a, &mut []);
    }
    let m = write_text(d, r.text, none(s.rule), &mut []);
    let n = inserted_in(s, f, m);
    let b = opened(a, s, f, 0);
    let c = write_text(d, r.text, b, &mut []);
    closed(c, s, f, n, 0)
}

// Writes a run: with a prefix its text is written first, where it must end, and then dressed in place.
fn put_run(d: &[u8], s: Settings, r: Run, out: &mut [u8], at: usize) -> usize
    requires run_fits { RunFits d.now r }
    requires r_in_bounds { (at + length (run_text s d.now r) ≤ length out.old) × (length (run_text s d.now r) < 2 ^ 57) }
    ensures { Puts out.old out.new at (run_text s d.now r) result }
{
    if is_left_out(r.text) {
        return at;
    }
    let p = prefix_len(s, r.format.look);
    if p == 0 {
        let Place(e) = write_text(d, r.text, Place(at), out);
        return e;
    }
    let m = write_text(d, r.text, none(s.rule), &mut []);
    let n = inserted_in(s, r.format, m);
    let b = at + (p + n);
    let Place(e) = write_text(d, r.text, Place(b), out);
    dress_bare(out, at, b, e, &PREFIXES[r.from..r.to])
}

// Measures a layout on top of `a`. This and the two below stay apart as `add_run` and `put_run` do (d);
// message, place and comparison stay three (d): these functions alone take them, and hand each on as it is.
pub fn add_layout(d: &[u8], from: usize, c: Spans, s: Settings, a: Measure) -> Measure
    requires spans_within { SpansWithin from (length d.now) (Some c) }
    requires small { (Small a) × (a.len + length (laid_text s d.now from c) < 2 ^ 57) }
    ensures { result ≡ grown a (laid_text s d.now from c) }
{
    let mut b = a;
    for k in 0..RUNS {
        b = add_run(d, s, run_at(from, c, k), b);
    }
    b
}

// The bytes of a layout. It is measured for them: few messages are laid out, and each is counted once.
pub fn layout_len(d: &[u8], from: usize, c: Spans, s: Settings) -> usize
    requires spans_within { SpansWithin from (length d.now) (Some c) }
    requires c_len_bound { length (laid_text s d.now from c) < 2 ^ 57 }
    ensures { result ≡ length (laid_text s d.now from c) }
{
    add_layout(d, from, c, s, none(s.rule)).len
}

// Writes a layout, and returns the place after it.
pub fn put_layout(d: &[u8], from: usize, c: Spans, s: Settings, out: &mut [u8], at: usize) -> usize
    requires spans_within { SpansWithin from (length d.now) (Some c) }
    requires c_in_bounds { (at + length (laid_text s d.now from c) ≤ length out.old) × (length (laid_text s d.now from c) < 2 ^ 57) }
    ensures { Puts out.old out.new at (laid_text s d.now from c) result }
{
    let mut b = at;
    for k in 0..RUNS {
        b = put_run(d, s, run_at(from, c, k), out, b);
    }
    b
}
