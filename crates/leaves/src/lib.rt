// The segments that hold no other: parts of the template, and what specifiers show of a record.
#![tactic(auto)]

ghost use Rattle.std.specs.Prelude.{◌≡◌, ◌+◌, ◌<◌, ◌≤◌, ◌^◌, length};
ghost use Rattle.buffer.specs.Bytes.{part};
ghost use Rattle.buffer.specs.Buffer.{Puts};
ghost use Rattle.measure.specs.Measures.{grown, Small};
ghost use Rattle.leaves.specs.Places.{record_by, Lent};
ghost use Rattle.leaves.specs.Fields.{field_text, laid};

use colour::Settings;
use comparisons::Spans;
use fields::wording_of;
use layouts::{add_layout, layout_len, put_layout};
use measure::Measure;
use measure::sink::{Count, Place, Sink};
use record::Places;
use wording::write_wording;
use words::LogMetadata;

// What a line shows of: the places of a record's texts, and those of the comparison that its message is.
#[derive(Clone, Copy)]
pub struct Shown {
    pub places: Places,
    pub spans: Option<Spans>,
}

// A text, which is a part of the template. Its places are cut to the template, so that any will do.
pub fn write_text<S: Sink>(t: &[u8], from: usize, to: usize, sink: S, out: &mut [u8]) -> S
    requires fits { S.fits sink out.old (part from to t.now) }
    ensures value { result ≡ S.after sink (part from to t.now) }
    ensures buffer { out.new ≡ S.left sink out.old (part from to t.now) }
{
    let to = to.min(t.len());
    let from = from.min(to);
    sink.take(&t[from..to], out)
}

// What the specifier m shows, on top of a measure. A layout is measured, counted and written by functions of its own, since what it inserts is told
// by a measure of each run: so a field is too, and one for all sinks would need a trait for those three (d). Bytes and what is shown of them stay two
// parameters, as in checks (d).
pub fn add_field(d: &[u8], shown: &Shown, s: Settings, m: LogMetadata, a: Measure) -> Measure
    requires lent { Lent d.now shown.now }
    requires small { (Small a) × (a.len + length (field_text s (record_by shown.now d.now) m) < 2 ^ 57) }
    ensures { result ≡ grown a (field_text s (record_by shown.now d.now) m) }
{
    match laid(shown, m) {
        Some(c) => add_layout(d, shown.places.message_from, c, s, a),
        None => write_wording(d, wording_of(d, shown.places, m), a, &mut []),
    }
}

pub fn field_len(d: &[u8], shown: &Shown, s: Settings, m: LogMetadata) -> usize
    requires lent { Lent d.now shown.now }
    requires m_len_bound { length (field_text s (record_by shown.now d.now) m) < 2 ^ 57 }
    ensures { result ≡ length (field_text s (record_by shown.now d.now) m) }
{
    match laid(shown, m) {
        Some(c) => layout_len(d, shown.places.message_from, c, s),
        None => write_wording(d, wording_of(d, shown.places, m), Count(0), &mut []).0,
    }
}

pub fn put_field(
    d: &[u8],
    shown: &Shown,
    s: Settings,
    m: LogMetadata,
    out: &mut [u8],
    at: usize,
) -> usize
    requires lent { Lent d.now shown.now }
    requires m_in_bounds { at + length (field_text s (record_by shown.now d.now) m) ≤ length out.old }
    ensures { Puts out.old out.new at (field_text s (record_by shown.now d.now) m) result }
{
    match laid(shown, m) {
        Some(c) => put_layout(d, shown.places.message_from, c, s, out, at),
        None => write_wording(d, wording_of(d, shown.places, m), Place(at), out).0,
    }
}

// The places of the comparison that m shows, which is laid out.
fn laid(shown: &Shown, m: LogMetadata) -> Option<Spans>
    ensures { result ≡ laid shown.now m }
{
    match m {
        LogMetadata::Log => shown.spans,
        _ => None,
    }
}
