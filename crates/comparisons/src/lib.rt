// Comparison reports: whether a message is one, and where its pieces stand. Text and places stay parameters of their own (d): each function looks at another
// stretch, and the places that they hand back are the message's.
#![tactic(auto)]

ghost use Rattle.std.specs.Prelude.{◌≡◌, List, [], ◌∷◌, ◌++◌, ◌+◌, ◌-◌, ◌<◌, ◌≤◌, length, get_or};
ghost use Rattle.buffer.specs.Bytes.{part, same};
ghost use Rattle.comparisons.specs.Comparisons.{ends_with, value_in, comparison, characters};
ghost use Rattle.comparisons.specs.Places.{trimmed, unended, LineAt, FirstNewline, FirstStart, LastStart, by_ending, EndingWithin, value_between, BetweenMarks, Beginning, End, layout_by, layout_for, SpansWithin, SpansOf};

use utf8::ones::goes_on;

pub mod head;

// Where a line ends, and where the next one begins.
#[derive(Clone, Copy)]
pub struct Lined {
    pub end: usize,
    pub next: usize,
}

// A stretch of a message.
#[derive(Clone, Copy)]
pub struct Span {
    pub from: usize,
    pub to: usize,
}

// The last two lines of three or more; the head is what stands before the first of them.
#[derive(Clone, Copy)]
pub struct LastTwo {
    pub left: Span,
    pub right: Span,
}

// Two places, one in each value.
#[derive(Clone, Copy)]
pub struct Pair {
    pub left: usize,
    pub right: usize,
}

// A value: up to `begun` and from `rest` on it is shared with the other.
#[derive(Clone, Copy)]
pub struct Value {
    pub from: usize,
    pub begun: usize,
    pub rest: usize,
    pub to: usize,
}

// The places of a comparison: the end of its head, its values.
#[derive(Clone, Copy)]
pub struct Spans {
    pub head: usize,
    pub left: Value,
    pub right: Value,
}

// The line that begins at place i of a text that ends at place e.
pub(crate) fn line_at(d: &[u8], i: usize, e: usize) -> Lined
    requires { (i < e) × (e ≤ length d.now) }
    ensures { LineAt d.now i e result }
{
    match newline_in(&d[i..e]) {
        Some(n) => ended_line(d, i, i + n),
        None => Lined { end: e, next: e },
    }
}

// Where the first newline of a text stands.
fn newline_in(t: &[u8]) -> Option<usize>
    ensures { FirstNewline t.now result }
{
    t.iter().position(|b| *b == b'\n')
}

// The line from place i up to the newline at place k.
fn ended_line(d: &[u8], i: usize, k: usize) -> Lined
    requires { (i ≤ k) × (k < length d.now) }
    ensures { (result.next ≡ k + 1) × (((i ≤ result.end) × (result.end ≤ k)) × (part i result.end d.now ≡ trimmed (part i k d.now))) }
{
    if i < k && d[k - 1] == b'\r' {
        return Lined {
            end: k - 1,
            next: k + 1,
        };
    }
    Lined {
        end: k,
        next: k + 1,
    }
}

// The last two lines of a message. It is no `for` (d): what is kept of a line is its places, and std's `split` hands out
// lines without them.
fn last_two(d: &[u8], from: usize, to: usize) -> Option<LastTwo>
    requires { (from ≤ to) × (to ≤ length d.now) }
    ensures { (by_ending d.now from result ≡ comparison (part from to d.now)) × EndingWithin from to result }
{
    if from == to {
        return None;
    }
    let first = line_at(d, from, to);
    if first.next == to {
        return None;
    }
    let second = line_at(d, first.next, to);
    let mut left = Span {
        from,
        to: first.end,
    };
    let mut right = Span {
        from: first.next,
        to: second.end,
    };
    let mut next = second.next;
    while next < to {
        let z = line_at(d, next, to);
        left = right;
        right = Span {
            from: next,
            to: z.end,
        };
        next = z.next;
    }
    if left.from == from {
        return None;
    }
    Some(LastTwo { left, right })
}

// The value that a line holds between its marks, if it does.
fn value_of(d: &[u8], line: Span, mark: &[u8; 8]) -> Option<Span>
    requires { (line.from ≤ line.to) × (line.to ≤ length d.now) }
    ensures { (value_between d.now result ≡ value_in mark.now (part line.from line.to d.now)) × BetweenMarks line result }
{
    if line.to - line.from < 9 || d[line.to - 1] != b'`' {
        return None;
    }
    if mark[..] != d[line.from..line.from + 8] {
        return None;
    }
    Some(Span {
        from: line.from + 8,
        to: line.to - 1,
    })
}

// The place after the character that begins at place i.
fn character_end(d: &[u8], i: usize, e: usize) -> usize
    requires { (i < e) × (e ≤ length d.now) }
    ensures { ((i < result) × (result ≤ e)) × (characters (part i e d.now) ≡ part i result d.now ∷ characters (part result e d.now)) }
{
    match first_start(&d[i + 1..e]) {
        Some(n) => i + 1 + n,
        None => e,
    }
}

// The place of the last character from place i up to place e.
fn character_start(d: &[u8], i: usize, e: usize) -> usize
    requires { (i < e) × (e ≤ length d.now) }
    ensures { ((i ≤ result) × (result < e)) × (characters (part i e d.now) ≡ characters (part i result d.now) ++ part result e d.now ∷ []) }
{
    match last_start(&d[i + 1..e]) {
        Some(n) => i + 1 + n,
        None => i,
    }
}

// Where the first character of a text begins, if one does.
fn first_start(t: &[u8]) -> Option<usize>
    ensures { FirstStart t.now result }
{
    t.iter().position(|b| goes_on(*b) == 0)
}

// Where the last one begins.
fn last_start(t: &[u8]) -> Option<usize>
    ensures { LastStart t.now result }
{
    t.iter().rposition(|b| goes_on(*b) == 0)
}

// The places up to which the texts from i up to e and from j up to f share their characters. Both are walked along by characters, of one to four bytes.
// It is no chain of iterators (d): the two places move on by what is found at each, and `shared_end` walks the other way.
fn shared_beginning(d: &[u8], i: usize, e: usize, j: usize, f: usize) -> Pair
    requires { ((i ≤ e) × (e ≤ length d.now)) × ((j ≤ f) × (f ≤ length d.now)) }
    ensures { Beginning d.now i e j f result }
{
    let mut p = i;
    let mut q = j;
    while p < e && q < f {
        let a = character_end(d, p, e);
        let b = character_end(d, q, f);
        if d[p..a] != d[q..b] {
            break;
        }
        p = a;
        q = b;
    }
    Pair { left: p, right: q }
}

// The places from which on the texts from i up to e and from j up to f share their characters.
fn shared_end(d: &[u8], i: usize, e: usize, j: usize, f: usize) -> Pair
    requires { ((i ≤ e) × (e ≤ length d.now)) × ((j ≤ f) × (f ≤ length d.now)) }
    ensures { End d.now i e j f result }
{
    let mut p = e;
    let mut q = f;
    while i < p && j < q {
        let a = character_start(d, i, p);
        let b = character_start(d, j, q);
        if d[a..p] != d[b..q] {
            break;
        }
        p = a;
        q = b;
    }
    Pair { left: p, right: q }
}

// The end of a message without the newline that ends its last line.
fn text_end(d: &[u8], from: usize, to: usize) -> usize
    requires { (from ≤ to) × (to ≤ length d.now) }
    ensures { ((from ≤ result) × (result ≤ to)) × (part from result d.now ≡ unended (part from to d.now)) }
{
    if from < to && d[to - 1] == b'\n' {
        return ended_line(d, from, to - 1).end;
    }
    to
}

// Whether the last line of a message ends as that of a comparison does. Its last bytes tell, so that other messages needn't be walked along.
fn is_closed(d: &[u8], from: usize, to: usize) -> bool
    requires { (from ≤ to) × (to ≤ length d.now) }
    ensures { result ≡ ends_with 0x60 (unended (part from to d.now)) }
{
    let e = text_end(d, from, to);
    from < e && d[e - 1] == b'`'
}

// The places of the message from place `from` up to place `to`, where it is a comparison.
pub fn comparison_in(d: &[u8], from: usize, to: usize) -> Option<Spans>
    requires { (from ≤ to) × (to ≤ length d.now) }
    ensures { (layout_by d.now from result ≡ layout_for (comparison (part from to d.now))) × SpansWithin from to result }
{
    if !is_closed(d, from, to) {
        return None;
    }
    let p = last_two(d, from, to)?;
    let left = value_of(d, p.left, b" left: `")?;
    let right = value_of(d, p.right, b"right: `")?;
    Some(spans_of(d, p.left.from, left, right))
}

// The places of two values of a message whose head ends at `head`.
fn spans_of(d: &[u8], head: usize, left: Span, right: Span) -> Spans
    requires left_within { (left.from ≤ left.to) × (left.to ≤ length d.now) }
    requires right_within { (right.from ≤ right.to) × (right.to ≤ length d.now) }
    ensures { SpansOf d.now head left.from left.to right.from right.to result }
{
    let begun = shared_beginning(d, left.from, left.to, right.from, right.to);
    let rest = shared_end(d, begun.left, left.to, begun.right, right.to);
    Spans {
        head,
        left: Value {
            from: left.from,
            begun: begun.left,
            rest: rest.left,
            to: left.to,
        },
        right: Value {
            from: right.from,
            begun: begun.right,
            rest: rest.right,
            to: right.to,
        },
    }
}
