// Measuring a line's segments. A sequence of bytes that switches a colour can begin in one segment and end in the next, so that a group's
// members are measured as a whole: each text goes on top of the measure of all before it, and what a group inserts and pads is looked up in a
// table, which is filled segment by segment. So no text is measured more often than groups stand around it. The table has the lengths too: a
// text with nothing around it is only counted, and a line is as long as its segments together.
#![tactic(auto)]

ghost use Rattle.std.specs.Prelude.{◌≡◌, ◌+◌, ◌<◌, ◌≤◌, ◌^◌, length};
ghost use Rattle.measure.specs.Measures.{grown};
ghost use Rattle.segments.specs.Sizes.{Low, Lows};
ghost use Rattle.segments.specs.Pool.{segment_at, chain_at, Sound};
ghost use Rattle.leaves.specs.Places.{Readable};
ghost use Rattle.members.specs.Links.{Forward};
ghost use Rattle.rows.specs.Materials.{record_in, segment_in, members_in, raw_in, Known, Addable};
ghost use Rattle.rows.specs.Rows.{bare_row, row_of, lengths_back, Tabled, Countable};

use colour::Settings;
use leaves::{Shown, add_field, field_len, write_text};
use measure::Measure;
use measure::additions::{inserted_in, padding_in};
use measure::framing::{closed, opened};
use measure::growing::none;
use measure::sink::Count;
use members::{Link, member_after};
use pool::{back_at, kind_at, last_at};
use prefix::length::{ends_len, prefix_len};
use segment::is_empty;
use segments::{Cell, Kind};

pub mod segment;

// What a line is made of: the pool that a template was read into and its links forward, the template, a record's bytes, what is shown of them,
// and what the line is made for. It is lent as one, since each step of a line reads of it. The table is no part of it (d): it is filled by these methods.
#[derive(Clone, Copy)]
pub struct Material<'a> {
    pub cells: &'a [Cell],
    pub links: &'a [Link],
    pub template: &'a [u8],
    pub bytes: &'a [u8],
    pub shown: &'a Shown,
    pub settings: Settings,
}

// What is known of a segment before it is written: the padding that it gets, the bytes inserted into it, and how long it is in all.
#[derive(Clone, Copy)]
pub struct Row {
    pub padding: usize,
    pub inserted: usize,
    pub len: usize,
}

impl Material<'_> {
    // The text of the segment at i on top of a measure, before it is formatted. Groups stand `depth` deep there at most, and a group's members are
    // gone into with one less: the three methods call each other in a cycle that ends because the depth falls.
    #[cycle(measuring)]
    fn raw_of(&self, table: &[Row], depth: usize, i: usize, a: Measure) -> Measure
        requires known { Known self.now table.now i }
        requires few { i < 64 }
        requires small { Addable a (raw_in self.now i) }
        requires low { Low depth (segment_at self.now.cells.now i) }
        ensures { result ≡ grown a (raw_in self.now i) }
    {
        match kind_at(self.cells, i) {
            Kind::Text(from, to) => write_text(self.template, from, to, a, &mut []),
            Kind::Group(_) => self.join_of(table, depth - 1, last_at(self.cells, i), a),
            Kind::Specifier(m) => add_field(self.bytes, self.shown, self.settings, m, a),
        }
    }

    // The members back from the link `l`, one after the other in a loop: so the stack grows with groups inside groups, and not with members.
    // A `while`, since it goes from link to link, and an iterator of its own would be longer than the two loops that go so (d).
    #[cycle(measuring)]
    fn join_of(&self, table: &[Row], depth: usize, l: usize, a: Measure) -> Measure
        requires known { Known self.now table.now l }
        requires small { Addable a (members_in self.now l) }
        requires lows { Lows depth (chain_at self.now.cells.now l) }
        ensures { result ≡ grown a (members_in self.now l) }
    {
        let mut b = a;
        let mut j = 0;
        while j < l {
            j = member_after(self.links, l, j);
            b = self.seg_of(table, depth, j - 1, b);
        }
        b
    }

    // The segment at i, formatted.
    #[cycle(measuring)]
    fn seg_of(&self, table: &[Row], depth: usize, i: usize, a: Measure) -> Measure
        requires known { Known self.now table.now (i + 1) }
        requires small { Addable a (segment_in self.now i) }
        requires low { Low depth (segment_at self.now.cells.now i) }
        ensures { result ≡ grown a (segment_in self.now i) }
    {
        if self.is_bare(i) {
            return self.raw_of(table, depth, i, a);
        }
        let s = self.settings;
        let w = self.frame_at(table, i);
        if is_empty(s, w) {
            return self.raw_of(table, depth, i, a);
        }
        let f = w.format;
        let b = opened(a, s, f, w.left);
        let c = self.raw_of(table, depth, i, b);
        closed(c, s, f, w.inserted, w.right)
    }

    // The bytes of the members back from the link `l`, by their rows. A sum has no order, so it goes along the links of the pool, which lead back; a `while`, as `join_of` is (d).
    pub fn members_len(&self, table: &[Row], l: usize) -> usize
        requires in_bounds { (64 ≤ length self.now.cells.now) × ((l ≤ 64) × (l ≤ length table.now)) }
        requires l_bound { lengths_back self.now.cells.now table.now l < 2 ^ 57 }
        ensures { result ≡ lengths_back self.now.cells.now table.now l }
    {
        let mut k = l;
        let mut n = 0;
        while 0 < k {
            n += table[k - 1].len;
            k = back_at(self.cells, k - 1);
        }
        n
    }

    // The bytes of the text of the segment at i, before it is formatted. The settings are those that the table was filled with.
    fn raw_len(&self, table: &[Row], i: usize) -> usize
        requires known { Known self.now table.now i }
        requires few { i < 64 }
        requires i_len_bound { length (raw_in self.now i) < 2 ^ 57 }
        ensures { result ≡ length (raw_in self.now i) }
    {
        match kind_at(self.cells, i) {
            Kind::Text(from, to) => write_text(self.template, from, to, Count(0), &mut []).0,
            Kind::Group(_) => self.members_len(table, last_at(self.cells, i)),
            Kind::Specifier(m) => field_len(self.bytes, self.shown, self.settings, m),
        }
    }

    // The row of the segment at i, where those before it stand in the table.
    fn row_for(&self, table: &[Row], i: usize) -> Row
        requires known { Known self.now table.now i }
        requires few { i < 64 }
        requires i_len_bound { length (segment_in self.now i) < 2 ^ 57 }
        requires low { Low 8 (segment_at self.now.cells.now i) }
        ensures { result ≡ row_of self.now.settings self.now.template.now (record_in self.now) (segment_at self.now.cells.now i) }
    {
        if self.is_bare(i) {
            return bare_row(self.raw_len(table, i));
        }
        let s = self.settings;
        let f = self.format_of(i);
        let p = prefix_len(s, f.look);
        // nothing to pad and nothing to insert: its text needs no look
        if f.width == 0 && p == 0 {
            return bare_row(self.raw_len(table, i));
        }
        let x = self.raw_of(table, 8, i, none(s.rule));
        let n = inserted_in(s, f, x);
        let z = padding_in(s, f, x, n);
        Row {
            padding: z,
            inserted: n,
            len: x.len + (n + (z + ends_len(p))),
        }
    }

    // The rows of the segments below n.
    pub fn rows(&self, n: usize, table: &mut [Row])
        requires readable { Readable self.now.cells.now self.now.bytes.now self.now.shown.now n }
        requires n_in_bounds { (n ≤ length table.old) × Countable self.now.settings self.now.template.now (record_in self.now) self.now.cells.now n }
        requires sound { Sound self.now.cells.now n × Forward self.now.cells.now self.now.links.now n }
        ensures { Tabled self.now.settings self.now.template.now (record_in self.now) self.now.cells.now table.new n }
    {
        for i in 0..n {
            table[i] = self.row_for(table, i);
        }
    }
}

// The row of n bytes with nothing around them.
fn bare_row(n: usize) -> Row
    ensures { result ≡ bare_row n }
{
    Row {
        padding: 0,
        inserted: 0,
        len: n,
    }
}
