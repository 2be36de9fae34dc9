// Words and texts: what is read without going into a brace.
// The text, the place and the end stay parameters of their own (d): each reader begins at another place, and hands back only where it ends. `even` is a `bool`, as in
// reader (a).
#![tactic(auto, unfolding(words::specs::Within::told, words::specs::Within::Fitting))]

ghost use Rattle.std.specs.Prelude.{◌≡◌, List, true, false, ℕ, ◌+◌, ◌-◌, ◌*◌, ◌≤◌, length, take};
ghost use Rattle.buffer.specs.Bytes.{byte};
ghost use Rattle.runs.specs.Runs.{run_end};
ghost use Rattle.words.specs.Trying.{fit, ◌then◌, further, listed};
ghost use Rattle.words.specs.Words.{parameter_at};
ghost use Rattle.segments.specs.Sizes.{Narrow};
ghost use Rattle.parts.specs.Parts.{no_parts, with_parameter};
ghost use Rattle.building.specs.Reading.{plain_byte, text_at, word_at, inner_at, percent_at, with_asked};
ghost use Rattle.building.specs.Told.{tell_parts, tell, tell_items, tell_item, tell_pieces, tell_piece, plain_item, plain_piece, with_last, joined_by, Room, PartsWithin, Keeps, ItemsReady, ItemsKeep, ItemWithin, PiecesReady, PiecesKeep, PieceWithin};

use building::{Inner, Items, Pieces, make_specified};
use parts::{Parts, no_parts, with_parameter, with_specifier};
use refusals::Refusal;
use segments::Cell;
use words::Read;

// Where the text that begins at `from` ends: before `{` or `%`.
pub fn plain_end(t: &[u8], from: usize, to: usize) -> usize
    requires { (from ≤ to) × (to ≤ length t.now) }
    ensures value { result ≡ run_end plain_byte t.now (to - from) from }
    ensures within { (from ≤ result) × (result ≤ to) }
{
    from + t[from..to]
        .iter()
        .take_while(|b| !matches!(**b, b'{' | b'%'))
        .count()
}

// A text of one byte or more.
#[tactic(auto, unfolding(words::specs::Within::told, words::specs::Within::Fitting, building::specs::Reading::make, building::specs::Reading::text_to, building::specs::Reading::text_at))]
pub fn parse_string_segment(
    t: &[u8],
    from: usize,
    to: usize,
    link: usize,
    cells: &mut [Cell],
    n: usize,
) -> Read<usize>
    requires { (from ≤ to) × (to ≤ length t.now) × Room cells.old n link }
    ensures cells_after { tell result cells.new ≡ text_at t.now from to n }
    ensures keeps { (d : ℕ) → Keeps (from + 1) to n link d cells.old cells.new result }
{
    let j = plain_end(t, from, to);
    if j <= from {
        return Ok(None);
    }
    if 64 <= n {
        return Err(Refusal::TooManySegments);
    }
    pool::put_text(cells, n, link, from, j);
    Ok(Some((j, n + 1)))
}

// A specifier or a parameter more.
pub fn parse_word(t: &[u8], from: usize, to: usize, p: Parts) -> Read<Parts>
    requires { (from ≤ to) × (to ≤ length t.now) × Narrow p.format.width }
    ensures result_value { tell_parts result ≡ word_at t.now to from p }
    ensures within { PartsWithin (from + 1) to result }
{
    match words::parser::parse_metadata(t, from, to)? {
        Some((j, m)) => Ok(Some((j, with_specifier(p, m)))),
        None => parse_parameter(t, from, to, p),
    }
}

// A parameter more.
pub fn parse_parameter(t: &[u8], from: usize, to: usize, p: Parts) -> Read<Parts>
    requires { (from ≤ to) × (to ≤ length t.now) × Narrow p.format.width }
    ensures result_value { tell_parts result ≡ (parameter_at t.now from to then λ a j. fit (with_parameter p a) j) }
    ensures within { PartsWithin (from + 1) to result }
{
    let Some((j, a)) = words::parser::parse_format(t, from, to)? else {
        return Ok(None);
    };
    Ok(Some((j, with_parameter(p, a))))
}

// The words that follow one another, split by colons, as long as they fit. It is no `for` (d): each word is read by what those before
// it said, may refuse, and says where the next one may begin.
pub fn further_words(t: &[u8], from: usize, to: usize, p: Parts) -> Read<Parts>
    requires { (from ≤ to) × (to ≤ length t.now) × Narrow p.format.width }
    ensures by_index { (n : ℕ) → to - from ≤ n → tell_parts result ≡ further (byte ":") t.now to (word_at t.now to) n from p }
    ensures within { PartsWithin from to result }
{
    let mut p = p;
    let mut j = from;
    while runs::stands_at(b':', t, j, to) {
        let Some((k, q)) = parse_word(t, j + 1, to, p)? else {
            break;
        };
        p = q;
        j = k;
    }
    Ok(Some((j, p)))
}

fn parse_words(t: &[u8], from: usize, to: usize) -> Read<Parts>
    requires { (from ≤ to) × (to ≤ length t.now) }
    ensures result_value { tell_parts result ≡ listed (byte ":") t.now to (word_at t.now to) from no_parts }
    ensures within { PartsWithin (from + 1) to result }
{
    let Some((j, p)) = parse_word(t, from, to, no_parts())? else {
        return Ok(None);
    };
    further_words(t, j, to, p)
}

// An inner list of words that makes a segment; it doesn't fit where it makes none.
fn parse_nested_argument(
    t: &[u8],
    from: usize,
    to: usize,
    link: usize,
    cells: &mut [Cell],
    n: usize,
) -> Read<usize>
    requires { (from ≤ to) × (to ≤ length t.now) × Room cells.old n link }
    ensures cells_after { tell result cells.new ≡ inner_at t.now from to n }
    ensures front { take n cells.new ≡ take n cells.old }
    ensures keeps { (d : ℕ) → Keeps (from + 1) to n link d cells.old cells.new result }
{
    let Some((j, p)) = parse_words(t, from, to)? else {
        return Ok(None);
    };
    make_specified(p, link, j, cells, n, Ok(None))
}

// The item with one segment more, made last of k.
#[tactic(auto, unfolding(building::specs::Told::with_last, building::specs::Told::next_inner))]
pub fn with_segment(c: Items, k: usize) -> Items
    ensures { result ≡ with_last c k }
{
    let inner = match c.inner {
        Inner::Nothing => Inner::One,
        _ => Inner::Several,
    };
    Items {
        inner,
        made: k,
        ..c
    }
}

// An item at odd depth that is a word.
fn parse_odd_item(t: &[u8], from: usize, to: usize, c: Items) -> Read<Items>
    requires { (from ≤ to) × (to ≤ length t.now) × Narrow c.parts.format.width }
    ensures by_index { (cells : List Cell) → tell_item result cells ≡ plain_item false t.now to from (tell_items c cells) }
    ensures keeps { (n link d : ℕ) (cells : List Cell) → ItemsKeep n link d cells c → ItemWithin (from + 1) to n link d cells result }
{
    let Some((j, parts)) = parse_word(t, from, to, c.parts)? else {
        return Ok(None);
    };
    Ok(Some((j, Items { parts, ..c })))
}

// An item at even depth that is an inner list or a parameter.
fn parse_even_item(
    t: &[u8],
    from: usize,
    to: usize,
    link: usize,
    cells: &mut [Cell],
    c: Items,
) -> Read<Items>
    requires { (from ≤ to) × (to ≤ length t.now) × Room cells.old c.made link × ItemsReady c }
    ensures cells_after { tell_item result cells.new ≡ plain_item true t.now to from (tell_items c cells.old) }
    ensures front { take c.made cells.new ≡ take c.made cells.old }
    ensures keeps { (n d : ℕ) → ItemsKeep n link d cells.old c → ItemWithin (from + 1) to n link d cells.new result }
{
    if let Some((j, k)) = parse_nested_argument(t, from, to, link, cells, c.made)? {
        return Ok(Some((j, with_segment(c, k))));
    }
    let Some((j, parts)) = parse_parameter(t, from, to, c.parts)? else {
        return Ok(None);
    };
    Ok(Some((j, Items { parts, ..c })))
}

// An item that is no group.
pub fn parse_plain_item(
    t: &[u8],
    from: usize,
    to: usize,
    even: bool,
    link: usize,
    cells: &mut [Cell],
    c: Items,
) -> Read<Items>
    requires { (from ≤ to) × (to ≤ length t.now) × Room cells.old c.made link × ItemsReady c }
    ensures cells_after { tell_item result cells.new ≡ plain_item even t.now to from (tell_items c cells.old) }
    ensures front { take c.made cells.new ≡ take c.made cells.old }
    ensures keeps { (n d : ℕ) → ItemsKeep n link d cells.old c → ItemWithin (from + 1) to n link d cells.new result }
{
    if even {
        return parse_even_item(t, from, to, link, cells, c);
    }
    parse_odd_item(t, from, to, c)
}

// A group with one member more, made last of k.
#[tactic(auto, unfolding(building::specs::Told::joined_by))]
pub fn with_member(g: Pieces, direct: bool, k: usize) -> Pieces
    ensures { result ≡ joined_by g direct k }
{
    Pieces {
        last: k,
        made: k,
        direct: g.direct || direct,
        ..g
    }
}

// A `%` with its parameter, which must be one.
fn parse_nested_format(t: &[u8], from: usize, to: usize, g: Pieces) -> Read<Pieces>
    requires { (from ≤ to) × (to ≤ length t.now) × Narrow g.parts.format.width }
    ensures by_index { (cells : List Cell) → tell_piece result cells ≡ (percent_at t.now from to then λ a j. fit (with_asked (tell_pieces g cells) a) j) }
    ensures keeps { (n d : ℕ) (cells : List Cell) → PiecesKeep n d cells g → PieceWithin (from + 1) to n d cells result }
{
    if !runs::stands_at(b'%', t, from, to) {
        return Ok(None);
    }
    let Some((j, parts)) = parse_parameter(t, from + 1, to, g.parts)? else {
        return Err(Refusal::Failure);
    };
    Ok(Some((j, Pieces { parts, ..g })))
}

// A piece of a group that is no brace.
pub fn parse_plain_piece(
    t: &[u8],
    from: usize,
    to: usize,
    cells: &mut [Cell],
    g: Pieces,
) -> Read<Pieces>
    requires { (from ≤ to) × (to ≤ length t.now) × Room cells.old g.made g.last × PiecesReady cells.old g }
    ensures cells_after { tell_piece result cells.new ≡ plain_piece t.now to from (tell_pieces g cells.old) }
    ensures front { take g.made cells.new ≡ take g.made cells.old }
    ensures keeps { (n d : ℕ) → PiecesKeep n d cells.old g → PieceWithin (from + 1) to n d cells.new result }
{
    match parse_string_segment(t, from, to, g.last, cells, g.made)? {
        Some((j, k)) => Ok(Some((j, with_member(g, false, k)))),
        None => parse_nested_format(t, from, to, g),
    }
}
