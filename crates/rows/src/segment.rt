// What a line's material says of a segment: whether and how it is formatted, and its frame by its row of the table.
ghost use Rattle.std.specs.Prelude.{◌≡◌, false, ◌<◌, ◌≤◌, length};
ghost use Rattle.segments.specs.Pool.{segment_at};
ghost use Rattle.leaves.specs.Places.{level_by};
ghost use Rattle.rows.specs.Texts.{bare_by, bare_from, is_bare, format_of};
ghost use Rattle.rows.specs.Rows.{row_at, frame_by, is_empty};

use super::{Material, Row};
use colour::{Format, Settings};
use dress::Frame;
use formats::{group_format, specifier_format};
use leaves::Shown;
use measure::padding::before_text;
use pool::{format_at, kind_at};
use prefix::length::prefix_len;
use record::Source;
use record::levels::source_of;
use segments::Kind;
use words::LogMetadata;

impl Material<'_> {
    // Whether the segment at i is never formatted. Each kind has an answer of its own (d).
    pub fn is_bare(&self, i: usize) -> bool
        requires { (64 ≤ length self.now.cells.now) × (i < 64) }
        ensures { result ≡ is_bare (bare_by self.now.shown.now) (segment_at self.now.cells.now i) }
    {
        match kind_at(self.cells, i) {
            Kind::Text(..) => true,
            Kind::Group(_) => false,
            Kind::Specifier(m) => is_bare_field(self.shown, m),
        }
    }

    // The format of the segment at i.
    pub(crate) fn format_of(&self, i: usize) -> Format
        requires in_bounds { (64 ≤ length self.now.cells.now) × (i < 64) }
        requires i_value { is_bare (bare_by self.now.shown.now) (segment_at self.now.cells.now i) ≡ false }
        ensures { result ≡ format_of (level_by self.now.shown.now) (segment_at self.now.cells.now i) }
    {
        let level = self.shown.places.level;
        let format = format_at(self.cells, i);
        match kind_at(self.cells, i) {
            Kind::Specifier(m) => specifier_format(level, m, format),
            _ => group_format(level, format),
        }
    }

    // The format of the segment at i, with what its row says.
    pub fn frame_at(&self, table: &[Row], i: usize) -> Frame
        requires in_bounds { (64 ≤ length self.now.cells.now) × (i < 64) }
        requires i_value { is_bare (bare_by self.now.shown.now) (segment_at self.now.cells.now i) ≡ false }
        requires i_in_bounds { i < length table.now }
        ensures { result ≡ frame_by (format_of (level_by self.now.shown.now) (segment_at self.now.cells.now i)) (row_at table.now i) }
    {
        let format = self.format_of(i);
        let row = table[i];
        let left = before_text(format.alignment, row.padding);
        Frame {
            format,
            left,
            right: row.padding - left,
            inserted: row.inserted,
        }
    }
}

// "A host's `{s}` is the bare message", and so is a comparison, which is laid out.
fn is_bare_field(shown: &Shown, m: LogMetadata) -> bool
    ensures { result ≡ bare_from (bare_by shown.now) m }
{
    let LogMetadata::Log = m else {
        return false;
    };
    matches!(source_of(shown.places.source), Source::Host) || shown.spans.is_some()
}

// Whether a frame adds nothing to its text, as most inside a group do.
pub(crate) fn is_empty(s: Settings, w: Frame) -> bool
    ensures { result ≡ is_empty s w }
{
    if w.left == 0 && w.right == 0 {
        return prefix_len(s, w.format.look) == 0;
    }
    false
}
