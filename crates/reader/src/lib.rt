// Braces, contents and groups: a group holds braces and a brace may hold a group.
// The place, the end and the pool stay parameters of their own (d): most calls change one of them, and clauses speak of `cells` before and after. `even` goes
// beside `left` (a): the definitions (`brace_in`) name both, and document 01 tells items by odd and even depth.
#![tactic(auto, unfolding(words::specs::Within::told, words::specs::Within::Fitting))]

ghost use Rattle.std.specs.Prelude.{◌≡◌, ℕ, ◌+◌, ◌-◌, ◌*◌, ◌<◌, ◌≤◌, length, take};
ghost use Rattle.segments.specs.Segments.{is_specifier};
ghost use Rattle.segments.specs.Pool.{segment_at};
ghost use Rattle.building.specs.Reading.{separator, piece_at, inside_at, brace_in, group_in, item_in};
ghost use Rattle.building.specs.Told.{tell, tell_items, tell_item, tell_pieces, tell_piece, further_built, Room, Keeps, ItemsReady, ItemsKeep, ItemWithin, PiecesReady, PiecesKeep, PieceWithin};

use braces::take_until_unbalanced;
use building::{Inner, Items, Pieces, build_group, build_log_segment};
use lists::{parse_plain_item, parse_plain_piece, with_member, with_segment};
use parts::no_parts;
use refusals::Refusal;
use segments::{Cell, Kind};
use words::Read;

// A brace at `from`.
#[cycle(reading)]
pub fn parse_argument(
    t: &[u8],
    from: usize,
    to: usize,
    left: usize,
    even: bool,
    link: usize,
    cells: &mut [Cell],
    n: usize,
) -> Read<usize>
    requires { (from ≤ to) × (to ≤ length t.now) × (left ≤ 8) × Room cells.old n link }
    ensures cells_after { tell result cells.new ≡ brace_in left even t.now from to n }
    ensures keeps { Keeps (from + 1) to n link left cells.old cells.new result }
{
    if !runs::stands_at(b'{', t, from, to) {
        return Ok(None);
    }
    let Some(c) = take_until_unbalanced(t, from + 1, to)? else {
        return Ok(None);
    };
    let Some((_, k)) = parse_log_segment(t, from + 1, c, left, even, link, cells, n)? else {
        return Ok(None);
    };
    Ok(Some((c + 1, k)))
}

// The content of a brace: items with separators between them.
#[cycle(reading)]
fn parse_log_segment(
    t: &[u8],
    from: usize,
    to: usize,
    left: usize,
    even: bool,
    link: usize,
    cells: &mut [Cell],
    n: usize,
) -> Read<usize>
    requires { (from ≤ to) × (to ≤ length t.now) × (left ≤ 8) × Room cells.old n link }
    ensures cells_after { tell result cells.new ≡ inside_at left even t.now from to n }
    ensures keeps { Keeps from to n link left cells.old cells.new result }
{
    if left == 0 {
        return Err(Refusal::TooDeep);
    }
    let none = Items {
        parts: no_parts(),
        inner: Inner::Nothing,
        made: n,
    };
    let Some((j, c)) = parse_item(t, from, to, left - 1, even, link, cells, none)? else {
        return Ok(None);
    };
    further_items(t, j, to, left - 1, even, link, cells, c)
}

#[tactic(auto, unfolding(building::specs::Reading::separator))]
pub fn separator_of(even: bool) -> u8
    ensures { result ≡ separator even }
{
    if even { b'%' } else { b':' }
}

// The items after the first, and what they all add up to; n segments were made where the content begins, as clauses say alone. It is no `for`, nor is the
// walk of a group (d): each item is read by what those before it said, may refuse, stores in the lent pool, and says where the next one may begin.
#[cycle(reading)]
#[inline(always)]
fn further_items(
    t: &[u8],
    from: usize,
    to: usize,
    left: usize,
    even: bool,
    link: usize,
    cells: &mut [Cell],
    c: Items,
) -> Read<usize>
    requires { (from ≤ to) × (to ≤ length t.now) × (left + 1 ≤ 8) × (64 ≤ length cells.old) × ((n : ℕ) × (link ≤ n) × ItemsKeep n link (left + 1) cells.old c) }
    ensures by_index { (m : ℕ) → to - from ≤ m → tell result cells.new ≡ further_built left even t.now to m from (tell_items c cells.old) }
    ensures keeps { (n : ℕ) → ItemsKeep n link (left + 1) cells.old c → Keeps from to n link (left + 1) cells.old cells.new result }
{
    let separator = separator_of(even);
    let mut c = c;
    let mut j = from;
    while runs::stands_at(separator, t, j, to) {
        let Some((k, d)) = parse_item(t, j + 1, to, left, even, link, cells, c)? else {
            break;
        };
        c = d;
        j = k;
    }
    build_log_segment(c, link, j, cells)
}

// One item: words, else a group.
#[cycle(reading)]
fn parse_item(
    t: &[u8],
    from: usize,
    to: usize,
    left: usize,
    even: bool,
    link: usize,
    cells: &mut [Cell],
    c: Items,
) -> Read<Items>
    requires { (from ≤ to) × (to ≤ length t.now) × (left + 1 ≤ 8) × Room cells.old c.made link × ItemsReady c }
    ensures cells_after { tell_item result cells.new ≡ item_in left even t.now to from (tell_items c cells.old) }
    ensures front { take c.made cells.new ≡ take c.made cells.old }
    ensures keeps { (n : ℕ) → ItemsKeep n link (left + 1) cells.old c → ItemWithin from to n link (left + 1) cells.new result }
{
    if let Some(plain) = parse_plain_item(t, from, to, even, link, cells, c)? {
        return Ok(Some(plain));
    }
    let Some((j, k)) = parse_nested(t, from, to, left, !even, link, cells, c.made)? else {
        return Ok(None);
    };
    Ok(Some((j, with_segment(c, k))))
}

// A group: pieces as long as they fit.
#[cycle(reading)]
fn parse_nested(
    t: &[u8],
    from: usize,
    to: usize,
    left: usize,
    even: bool,
    link: usize,
    cells: &mut [Cell],
    n: usize,
) -> Read<usize>
    requires { (from ≤ to) × (to ≤ length t.now) × (left + 1 ≤ 8) × Room cells.old n link }
    ensures cells_after { tell result cells.new ≡ group_in left even t.now from to n }
    ensures keeps { Keeps from to n link (left + 1) cells.old cells.new result }
{
    let mut g = Pieces {
        parts: no_parts(),
        last: 0,
        direct: false,
        made: n,
    };
    let mut i = from;
    while i < to {
        let Some((j, h)) = parse_piece(t, i, to, left, even, cells, g)? else {
            break;
        };
        g = h;
        i = j;
    }
    build_group(g, link, i, cells)
}

fn is_specifier_at(cells: &[Cell], i: usize) -> bool
    requires { (64 ≤ length cells.now) × (i < 64) }
    ensures { result ≡ is_specifier (segment_at cells.now i) }
{
    matches!(pool::kind_at(cells, i), Kind::Specifier(_))
}

// One piece of a group: a brace, else text or a parameter.
#[cycle(reading)]
fn parse_piece(
    t: &[u8],
    from: usize,
    to: usize,
    left: usize,
    even: bool,
    cells: &mut [Cell],
    g: Pieces,
) -> Read<Pieces>
    requires { (from ≤ to) × (to ≤ length t.now) × (left + 1 ≤ 8) × Room cells.old g.made g.last × PiecesReady cells.old g }
    ensures cells_after { tell_piece result cells.new ≡ piece_at t.now (brace_in left even t.now) to from (tell_pieces g cells.old) }
    ensures front { take g.made cells.new ≡ take g.made cells.old }
    ensures keeps { (n : ℕ) → PiecesKeep n left cells.old g → PieceWithin (from + 1) to n left cells.new result }
{
    // most pieces are no brace, and to see that costs less than the call
    let brace = if runs::stands_at(b'{', t, from, to) {
        parse_argument(t, from, to, left, even, g.last, cells, g.made)?
    } else {
        None
    };
    match brace {
        Some((j, k)) => Ok(Some((j, with_member(g, is_specifier_at(cells, k - 1), k)))),
        None => parse_plain_piece(t, from, to, cells, g),
    }
}
