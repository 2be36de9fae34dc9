// What a template that was read leaves unused: a second look at it, which asks again what fits where, and makes no segments. So it needs no pool, and the
// reading itself is no slower for it.
// (A template and two places stay three parameters, as in endings, and `even` a `bool`, as in reader (a). The walks are no `for`: what is looked at says where the next look begins (d).)
#![tactic(auto)]

ghost use Rattle.std.specs.Prelude.{◌≡◌, not, ◌+◌, ◌≤◌, length};
ghost use Rattle.words.specs.Trying.{fit};
ghost use Rattle.unused.specs.Unused.{sooner, first_of, unused_in};
ghost use Rattle.unused.specs.Looking.{place_told, PlaceBelow, tell_look, worded, look_item, left_by_content, look_piece, look_inside, look_brace_in, look_group_in, tell_piece_look, PieceLooked, look_top, WasRead};

use braces::take_until_unbalanced;
use endings::{parameter_end, plain_piece_end, text_end, word_end};
use reader::separator_of;

// A content so far: where it ends, its first parameter, the first place that it leaves unused, whether it takes a group or inner segment.
#[derive(Clone, Copy)]
pub struct Look {
    pub end: usize,
    pub asked: Option<usize>,
    pub unused: Option<usize>,
    pub takes: bool,
}

// Where something ends that fits, and the first place that it leaves unused.
#[derive(Clone, Copy)]
pub struct Seen {
    pub end: usize,
    pub unused: Option<usize>,
}

// The earlier of two places, where there are any.
fn earlier(x: Option<usize>, y: Option<usize>) -> Option<usize>
    ensures { place_told result ≡ sooner (place_told x) (place_told y) }
{
    match (x, y) {
        (Some(a), Some(b)) => Some(a.min(b)),
        (None, y) => y,
        (x, None) => x,
    }
}

// What a content leaves unused: in it, its first parameter where it takes a group or inner segment, and what stands behind its end.
fn left_by(c: Look, to: usize) -> Option<usize>
    ensures { place_told result ≡ left_by_content (tell_look c) c.end to }
{
    let lost = if c.takes { c.asked } else { None };
    let dropped = (c.end < to).then_some(c.end);
    earlier(c.unused, earlier(lost, dropped))
}

// A brace at `from`.
#[cycle(looking)]
#[tactic(auto, unfolding(braces::specs::Within::ClosingWithin))]
fn look_brace(t: &[u8], from: usize, to: usize, left: usize, even: bool) -> Option<Seen>
    requires { (from ≤ to) × (to ≤ length t.now) }
    ensures result_value { tell_piece_look result ≡ look_brace_in left even t.now from to }
    ensures within { PieceLooked (from + 1) to result }
{
    if !runs::stands_at(b'{', t, from, to) {
        return None;
    }
    let Ok(Some(c)) = take_until_unbalanced(t, from + 1, to) else {
        return None;
    };
    let s = look_content(t, from + 1, c, left, even);
    Some(Seen { end: c + 1, ..s })
}

// The content of a brace: items with separators between them.
#[cycle(looking)]
fn look_content(t: &[u8], from: usize, to: usize, left: usize, even: bool) -> Seen
    requires { (from ≤ to) × (to ≤ length t.now) }
    ensures { fit (place_told result.unused) result.end ≡ look_inside left even t.now from to }
{
    if left == 0 {
        return Seen {
            end: from,
            unused: None,
        };
    }
    let separator = separator_of(even);
    let none = Look {
        end: from,
        asked: None,
        unused: None,
        takes: false,
    };
    let mut c = look_item(t, from, to, left - 1, even, none);
    while runs::stands_at(separator, t, c.end, to) {
        c = look_item(t, c.end + 1, to, left - 1, even, c);
    }
    Seen {
        end: c.end,
        unused: left_by(c, to),
    }
}

// One item: words, a parameter, else a group.
#[cycle(looking)]
fn look_item(t: &[u8], from: usize, to: usize, left: usize, even: bool, c: Look) -> Look
    requires { (from ≤ to) × (to ≤ length t.now) }
    ensures end_value { fit (tell_look result) result.end ≡ look_item even t.now (look_group_in left (not even) t.now) to from (tell_look c) }
    ensures within { (from ≤ result.end) × (result.end ≤ to) }
{
    if let Some(end) = word_end(t, from, to, even) {
        return with_word(c, end, even);
    }
    if let Some(end) = parameter_end(t, from, to) {
        return Look {
            end,
            asked: earlier(Some(from), c.asked),
            ..c
        };
    }
    let g = look_group(t, from, to, left, !even);
    Look {
        end: g.end,
        unused: earlier(c.unused, g.unused),
        takes: true,
        ..c
    }
}

fn with_word(c: Look, j: usize, even: bool) -> Look
    ensures { (tell_look result ≡ worded even (tell_look c)) × (result.end ≡ j) × (result.unused ≡ c.unused) × (result.asked ≡ c.asked) }
{
    Look {
        end: j,
        takes: even || c.takes,
        ..c
    }
}

// A group: pieces as long as they fit.
#[cycle(looking)]
fn look_group(t: &[u8], from: usize, to: usize, left: usize, even: bool) -> Seen
    requires { (from ≤ to) × (to ≤ length t.now) }
    ensures end_value { fit (place_told result.unused) result.end ≡ look_group_in left even t.now from to }
    ensures within { (from ≤ result.end) × (result.end ≤ to) }
{
    let mut unused = None;
    let mut i = from;
    while i < to {
        let Some(s) = look_piece(t, i, to, left, even, unused) else {
            break;
        };
        unused = s.unused;
        i = s.end;
    }
    Seen { end: i, unused }
}

// One piece of a group: a brace, else text or a parameter.
#[cycle(looking)]
fn look_piece(
    t: &[u8],
    from: usize,
    to: usize,
    left: usize,
    even: bool,
    u: Option<usize>,
) -> Option<Seen>
    requires { (from ≤ to) × (to ≤ length t.now) }
    ensures result_value { tell_piece_look result ≡ look_piece t.now (look_brace_in left even t.now) to from (place_told u) }
    ensures within { PieceLooked (from + 1) to result }
{
    if let Some(s) = look_brace(t, from, to, left, even) {
        return Some(Seen {
            unused: earlier(u, s.unused),
            ..s
        });
    }
    let end = plain_piece_end(t, from, to)?;
    Some(Seen { end, unused: u })
}

// A segment of the top level: a brace, else text. (One function for this and for a piece would take what is no brace as a closure, and be no plainer: d.)
fn look_top(t: &[u8], from: usize, u: Option<usize>) -> Option<Seen>
    requires { from ≤ length t.now }
    ensures result_value { tell_piece_look result ≡ look_top t.now (length t.now) from (place_told u) }
    ensures within { PieceLooked (from + 1) (length t.now) result }
{
    if let Some(s) = look_brace(t, from, t.len(), 8, false) {
        return Some(Seen {
            unused: earlier(u, s.unused),
            ..s
        });
    }
    let end = text_end(t, from, t.len())?;
    Some(Seen { end, unused: u })
}

// The first place that a template leaves unused, which was read: in its segments as long as they fit, or where the rest is dropped.
pub fn unused_in(t: &[u8]) -> Option<usize>
    requires { (length t.now ≤ 1024) × WasRead t.now }
    ensures value { place_told result ≡ first_of (unused_in t.now) }
    ensures below { PlaceBelow (length t.now) result }
{
    let mut unused = None;
    let mut i = 0;
    while i < t.len() {
        let Some(s) = look_top(t, i, unused) else {
            return earlier(unused, Some(i));
        };
        unused = s.unused;
        i = s.end;
    }
    unused
}
