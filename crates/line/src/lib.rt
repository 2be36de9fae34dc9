// A whole line: its segments measured, then written with the padding and the insertions that the table tells.
#![tactic(auto)]

ghost use Rattle.std.specs.Prelude.{◌≡◌, ◌+◌, ◌<◌, ◌≤◌, length};
ghost use Rattle.buffer.specs.Buffer.{Puts, Writes};
ghost use Rattle.segments.specs.Sizes.{Low, Lows};
ghost use Rattle.segments.specs.Pool.{segment_at, chain_at};
ghost use Rattle.rows.specs.Texts.{record_segments};
ghost use Rattle.rows.specs.Materials.{segment_in, members_in, raw_in, Known};
ghost use Rattle.rows.specs.Rows.{Writable};

use buffer::fill;
use colour::Settings;
use dress::dress;
use leaves::{Shown, put_field, write_text};
use measure::padding::pad_byte;
use measure::sink::Place;
use members::{Link, forward, member_after};
use pool::{kind_at, last_at};
use prefix::length::prefix_len;
use rows::{Material, Row};
use segments::{Cell, Kind};

// Writes the line of a record, by the n segments of the pool that were read from the template t, and returns its length. Where the buffer
// is too short nothing is written, and the length that it would need is returned. What travels together is put together here, as `Material`, and not by who calls (a):
// docs/CONTRACTS.md has the function as it is (`write_line_settled`).
pub fn write_line(
    cells: &[Cell],
    n: usize,
    t: &[u8],
    d: &[u8],
    shown: &Shown,
    s: Settings,
    out: &mut [u8],
) -> usize
    requires { Writable cells.now t.now d.now shown.now n }
    ensures { Writes out.old out.new (record_segments s t.now shown.now d.now (chain_at cells.now n)) result }
{
    let mut links = [Link { next: 0, first: 0 }; 64];
    forward(cells, n, &mut links);
    let m = Material {
        cells,
        links: &links,
        template: t,
        bytes: d,
        shown,
        settings: s,
    };
    let mut table = [Row {
        padding: 0,
        inserted: 0,
        len: 0,
    }; 64];
    m.rows(n, &mut table);
    let x = m.members_len(&table, n);
    if out.len() < x {
        return x;
    }
    put_join(&m, &table, 8, n, out, 0)
}

// Writes the text of the segment at i before it is formatted, and returns the place after it. The depth falls from a group to its members, as
// it does where they are measured. The walk is the same there: one for both would need a trait for each way to format a segment, and be no plainer (d).
#[cycle(putting)]
fn put_raw(
    m: &Material<'_>,
    table: &[Row],
    depth: usize,
    i: usize,
    out: &mut [u8],
    at: usize,
) -> usize
    requires known { Known m.now table.now i }
    requires few { i < 64 }
    requires i_in_bounds { at + length (raw_in m.now i) ≤ length out.old }
    requires low { Low depth (segment_at m.now.cells.now i) }
    ensures { Puts out.old out.new at (raw_in m.now i) result }
{
    match kind_at(m.cells, i) {
        Kind::Text(from, to) => write_text(m.template, from, to, Place(at), out).0,
        Kind::Group(_) => put_join(m, table, depth - 1, last_at(m.cells, i), out, at),
        Kind::Specifier(x) => put_field(m.bytes, m.shown, m.settings, x, out, at),
    }
}

// Writes the members back from the link `l`, in a loop as they were measured.
#[cycle(putting)]
fn put_join(
    m: &Material<'_>,
    table: &[Row],
    depth: usize,
    l: usize,
    out: &mut [u8],
    at: usize,
) -> usize
    requires known { Known m.now table.now l }
    requires l_in_bounds { at + length (members_in m.now l) ≤ length out.old }
    requires lows { Lows depth (chain_at m.now.cells.now l) }
    ensures { Puts out.old out.new at (members_in m.now l) result }
{
    let mut b = at;
    let mut j = 0;
    while j < l {
        j = member_after(m.links, l, j);
        b = put_seg(m, table, depth, j - 1, out, b);
    }
    b
}

// Writes the segment at i, formatted: with a prefix its text is written first, where it must end, and then dressed in place.
#[cycle(putting)]
fn put_seg(
    m: &Material<'_>,
    table: &[Row],
    depth: usize,
    i: usize,
    out: &mut [u8],
    at: usize,
) -> usize
    requires known { Known m.now table.now (i + 1) }
    requires i_in_bounds { at + length (segment_in m.now i) ≤ length out.old }
    requires low { Low depth (segment_at m.now.cells.now i) }
    ensures { Puts out.old out.new at (segment_in m.now i) result }
{
    if m.is_bare(i) {
        return put_raw(m, table, depth, i, out, at);
    }
    let w = m.frame_at(table, i);
    let f = w.format;
    let p = prefix_len(m.settings, f.look);
    if p == 0 {
        let z = pad_byte(f.padding);
        let b = fill(out, at, w.left, z);
        let e = put_raw(m, table, depth, i, out, b);
        return fill(out, e, w.right, z);
    }
    let b = at + (p + (w.left + w.inserted));
    let e = put_raw(m, table, depth, i, out, b);
    dress(out, at, b, e, w)
}
