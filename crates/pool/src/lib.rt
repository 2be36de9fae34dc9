// The pool, which only grows: a segment is stored once, after its members, and never changed. The memory is lent and fixed: a slice that has 64 cells or more, and
// no array of 64 nor a type that holds one (a): `template::parse` and the functions here stand in docs/CONTRACTS.md, and ask no more than that.
#![tactic(auto)]

ghost use Rattle.std.specs.Prelude.{◌≡◌, ◌<◌, ◌≤◌, length, set};
ghost use Rattle.segments.specs.Segments.{text, specifier, group};
ghost use Rattle.segments.specs.Pool.{kind_at, format_at, link_below, back, last_link, last_member, chain_at, Adds};

use segments::{Cell, EMPTY, Kind};
use words::{LogFormat, LogMetadata};

// Adds a text, which is a place in the template. Its format is never asked for.
pub fn put_text(cells: &mut [Cell], n: usize, link: usize, from: usize, to: usize)
    requires { (64 ≤ length cells.old) × ((n < 64) × (link ≤ n)) }
    ensures { Adds cells.old cells.new n link (text from to) }
{
    store(cells, n, link, Kind::Text(from, to), EMPTY.format);
}

#[inline(always)]
pub fn put_specifier(cells: &mut [Cell], n: usize, link: usize, m: LogMetadata, f: LogFormat)
    requires { (64 ≤ length cells.old) × ((n < 64) × (link ≤ n)) }
    ensures { Adds cells.old cells.new n link (specifier m f) }
{
    store(cells, n, link, Kind::Specifier(m), f);
}

// Adds a group, whose members are those back from `last`.
pub fn put_group(cells: &mut [Cell], n: usize, link: usize, last: usize, f: LogFormat)
    requires { (64 ≤ length cells.old) × ((n < 64) × ((link ≤ n) × (last ≤ n))) }
    ensures adds { Adds cells.old cells.new n link (group (chain_at cells.old last) f) }
    ensures ends { last_member cells.new n ≡ last }
{
    store(cells, n, link, Kind::Group(last), f);
}

#[inline(always)]
fn store(cells: &mut [Cell], n: usize, link: usize, kind: Kind, format: LogFormat)
    requires { n < length cells.old }
    ensures { cells.new ≡ set cells.old n (record { kind = kind; format = format; link = link }) }
{
    cells[n] = Cell { kind, format, link };
}

#[tactic(auto, unfolding(segments::specs::Pool::cell, segments::specs::Pool::kind_at))]
pub fn kind_at(cells: &[Cell], i: usize) -> Kind
    requires { (64 ≤ length cells.now) × (i < 64) }
    ensures { result ≡ kind_at cells.now i }
{
    cells[i].kind
}

#[tactic(auto, unfolding(segments::specs::Pool::cell, segments::specs::Pool::format_at))]
pub fn format_at(cells: &[Cell], i: usize) -> LogFormat
    requires { (64 ≤ length cells.now) × (i < 64) }
    ensures { result ≡ format_at cells.now i }
{
    cells[i].format
}

// The link to the member before the segment at i.
#[tactic(auto, unfolding(segments::specs::Pool::cell, segments::specs::Pool::back))]
pub fn back_at(cells: &[Cell], i: usize) -> usize
    requires { (64 ≤ length cells.now) × (i < 64) }
    ensures { (result ≡ back cells.now i) × (result ≤ i) }
{
    link_below(i, cells[i].link)
}

// The link to the last member of the group at i. Who has the group asks for it here all the same (d): it is cut to what lies below, so that walks end in any pool.
#[tactic(auto, unfolding(segments::specs::Pool::cell, segments::specs::Pool::kind_at, segments::specs::Pool::last_member))]
pub fn last_at(cells: &[Cell], i: usize) -> usize
    requires { (64 ≤ length cells.now) × (i < 64) }
    ensures { (result ≡ last_member cells.now i) × (result ≤ i) }
{
    link_below(i, last_link(cells[i].kind))
}

// The link that a group has to its last member.
fn last_link(kind: Kind) -> usize
    ensures { result ≡ last_link kind }
{
    match kind {
        Kind::Group(last) => last,
        Kind::Text(..) | Kind::Specifier(_) => 0,
    }
}

#[tactic(auto, unfolding(segments::specs::Pool::link_below))]
fn link_below(i: usize, l: usize) -> usize
    ensures { (result ≡ link_below i l) × (result ≤ i) }
{
    if l <= i { l } else { 0 }
}
