// A whole template, under the crate's names (`parser.rs`), by either edition of the rules.
#![tactic(auto)]

ghost use Rattle.std.specs.Prelude.{◌≡◌, false, List, ℕ, ◌+◌, ◌≤◌, length};
ghost use Rattle.letters.specs.Marked.{marked};
ghost use Rattle.segments.specs.Pool.{chain_at};
ghost use Rattle.building.specs.Reading.{brace_in, top_segment_at};
ghost use Rattle.unused.specs.Looking.{WasRead};
ghost use Rattle.template.specs.Template.{read, with_message, top_level, read_by, names_timestamp};
ghost use Rattle.building.specs.Told.{tell, Room, Keeps};
ghost use Rattle.template.specs.Parsing.{tell_parsed, judged_by, ReadKeeps, ParsedKeeps};

use lists::parse_string_segment;
use reader::parse_argument;
use refusals::Refusal;
use segments::Cell;
use unused::unused_in;
use words::{LogMetadata, Read};

// The rules that a template is read by: the strict ones refuse what the first read and leave something of it unused.
#[derive(Clone, Copy)]
pub enum Edition {
    First,
    Strict,
}

// A brace, if one stands there.
#[tactic(auto, unfolding(words::specs::Within::told, words::specs::Within::Fitting, building::specs::Reading::brace_at))]
fn parse_brace(t: &[u8], from: usize, cells: &mut [Cell], n: usize) -> Read<usize>
    requires { (from ≤ length t.now) × Room cells.old n n }
    ensures cells_after { tell result cells.new ≡ brace_in 8 false t.now from (length t.now) n }
    ensures keeps { Keeps (from + 1) (length t.now) n n 8 cells.old cells.new result }
{
    if !runs::stands_at(b'{', t, from, t.len()) {
        return Ok(None);
    }
    parse_argument(t, from, t.len(), 8, false, n, cells, n)
}

// A segment of the top level: a brace, else text.
fn parse_top(t: &[u8], from: usize, cells: &mut [Cell], n: usize) -> Read<usize>
    requires { (from ≤ length t.now) × Room cells.old n n }
    ensures cells_after { tell result cells.new ≡ top_segment_at t.now from n }
    ensures keeps { Keeps (from + 1) (length t.now) n n 8 cells.old cells.new result }
{
    if let Some(brace) = parse_brace(t, from, cells, n)? {
        return Ok(Some(brace));
    }
    parse_string_segment(t, from, t.len(), n, cells, n)
}

#[tactic(auto, using(naming::proofs::Wanting::message_named), unfolding(crate::specs::Template::with_message))]
fn format_contains_log_specifier(cells: &[Cell], n: usize) -> Result<usize, Refusal>
    requires { (64 ≤ length cells.now) × (n ≤ 64) }
    ensures cells_value { tell_parsed result cells.now ≡ with_message (chain_at cells.now n) }
    ensures keeps { ReadKeeps cells.now n → ParsedKeeps cells.now result }
{
    if naming::names(cells, LogMetadata::Log, n) {
        return Ok(n);
    }
    Err(Refusal::NoMessage)
}

// Segments as long as they fit; the rest is dropped. It is no `for` (d): each may refuse, stores in the lent pool, and says where
// the next one may begin.
fn parse_all(t: &[u8], cells: &mut [Cell]) -> Result<usize, Refusal>
    requires { 64 ≤ length cells.old }
    ensures cells_after { tell_parsed result cells.new ≡ top_level t.now }
    ensures keeps { ParsedKeeps cells.new result }
{
    let mut i: usize = 0;
    let mut n: usize = 0;
    while i < t.len() {
        let Some((j, k)) = parse_top(t, i, cells, n)? else {
            break;
        };
        i = j;
        n = k;
    }
    format_contains_log_specifier(cells, n)
}

// The n segments that the first edition read, where the edition asked for reads them too. What is left unused is looked for only where it is asked, and after
// the reading: every other refusal of a template comes first.
#[tactic(auto, unfolding(crate::specs::Template::all_used))]
fn if_all_used(edition: Edition, t: &[u8], n: usize) -> Result<usize, Refusal>
    requires { (length t.now ≤ 1024) × WasRead t.now }
    ensures by_index { (cells : List Cell) → tell_parsed result cells ≡ judged_by edition t.now (read (chain_at cells n)) }
    ensures keeps { (cells : List Cell) → ReadKeeps cells n → ParsedKeeps cells result }
{
    match edition {
        Edition::First => Ok(n),
        Edition::Strict => match unused_in(t) {
            Some(p) => Err(Refusal::Dropped(p)),
            None => Ok(n),
        },
    }
}

// A template as it is read, its letters marked.
fn parse_by(edition: Edition, t: &[u8], cells: &mut [Cell]) -> Result<usize, Refusal>
    requires { (64 ≤ length cells.old) × (length t.now ≤ 1024) }
    ensures cells_after { tell_parsed result cells.new ≡ judged_by edition t.now (top_level t.now) }
    ensures keeps { ParsedKeeps cells.new result }
{
    let n = parse_all(t, cells)?;
    if_all_used(edition, t, n)
}

// Bytes of a template that is read from a small copy: most are no longer.
const SHORT: usize = 256;

// The most bytes that a template has.
const LONG: usize = 1024;

// A template with letters beyond ASCII is read from a copy in which they are marked: places in the copy are places in the template.
fn parse_copy<const N: usize>(
    edition: Edition,
    t: &[u8],
    cells: &mut [Cell],
) -> Result<usize, Refusal>
    requires { (64 ≤ length cells.old) × (length t.now ≤ N) × (N ≤ 1024) }
    ensures cells_after { tell_parsed result cells.new ≡ judged_by edition (marked t.now) (top_level (marked t.now)) }
    ensures keeps { ParsedKeeps cells.new result }
{
    let mut marks = [0u8; N];
    letters::table::mark_letters(t, &mut marks);
    parse_by(edition, &marks[..t.len()], cells)
}

// A small copy is cleared sooner.
fn parse_marked(edition: Edition, t: &[u8], cells: &mut [Cell]) -> Result<usize, Refusal>
    requires { (64 ≤ length cells.old) × (length t.now ≤ 1024) }
    ensures cells_after { tell_parsed result cells.new ≡ judged_by edition (marked t.now) (top_level (marked t.now)) }
    ensures keeps { ParsedKeeps cells.new result }
{
    if t.len() <= SHORT {
        return parse_copy::<SHORT>(edition, t, cells);
    }
    parse_copy::<LONG>(edition, t, cells)
}

pub fn parse(edition: Edition, t: &[u8], cells: &mut [Cell]) -> Result<usize, Refusal>
    requires { 64 ≤ length cells.old }
    ensures cells_after { tell_parsed result cells.new ≡ read_by edition t.now }
    ensures keeps { ParsedKeeps cells.new result }
{
    if LONG < t.len() {
        return Err(Refusal::TemplateTooLong);
    }
    // most templates are ASCII, and that is seen at a glance
    if utf8::is_ascii(t) {
        return parse_by(edition, t, cells);
    }
    if !utf8::is_utf8(t) {
        return Err(Refusal::TemplateNotUtf8);
    }
    if letters::doubt::is_unmarked(t) {
        return parse_by(edition, t, cells);
    }
    parse_marked(edition, t, cells)
}

// Whether the segments name the time.
#[tactic(auto, using(naming::proofs::Wanting::time_named), unfolding(crate::specs::Template::names_timestamp))]
pub fn format_has_timestamp(cells: &[Cell], n: usize) -> bool
    requires { (64 ≤ length cells.now) × (n ≤ 64) }
    ensures { result ≡ names_timestamp (chain_at cells.now n) }
{
    naming::names(cells, LogMetadata::Timestamp, n)
}
