// What each specifier shows of a record. Bytes and places stay two parameters, as in checks (d).
#![tactic(auto)]

ghost use Rattle.std.specs.Prelude.{◌≡◌, cond, [], ◌∷◌, ◌+◌, ◌<◌, ◌≤◌, length, get_or};
ghost use Rattle.buffer.specs.Bytes.{bytes, part, same};
ghost use Rattle.record.specs.Placed.{laid_by, PlacesWithin};
ghost use Rattle.record.specs.Levels.{name_of};
ghost use Rattle.record.specs.Contents.{marks, record_of};
ghost use Rattle.paths.specs.Paths.{before_colons};
ghost use Rattle.fields.specs.Texts.{no_crate, or_placeholder, wording};
ghost use Rattle.fields.specs.Wordings.{fixed_text, Tells};
ghost use Rattle.fields.specs.Worded.{Worded, WordedAnywhere, Compares, FirstColons};

use comparisons::{Spans, comparison_in};
use record::levels::{level_of, source_of};
use record::marks::{Field, marks};
use record::{Level, Name, Places, Source};
use words::LogMetadata;

// A text that doesn't come from the record: placeholders and the names of levels.
#[derive(Clone, Copy)]
pub enum Fixed {
    Empty,
    Crate,
    File,
    ModulePath,
    Time,
    Head,
    Level(Name),
}

// Where a specifier's text comes from: a part of the record's bytes, a fixed text, a number, or the last so many components of a path.
#[derive(Clone, Copy)]
pub enum Wording {
    Part(usize, usize),
    Fixed(Fixed),
    Number(usize),
    Components(usize, usize, usize),
}

// The wording of the specifier m, for the record with the places p in the bytes d.
#[tactic(auto, unfolding(crate::specs::Texts::wording, crate::specs::Texts::there, crate::specs::Texts::or_placeholder, crate::specs::Wordings::bytes_of, record::specs::Placed::laid_by, record::specs::Computing::computes))]
pub fn wording_of(d: &[u8], p: Places, m: LogMetadata) -> Wording
    requires { PlacesWithin (length d.now) p }
    ensures { Tells result d.now (wording (record_of (laid_by p d.now)) m) }
{
    match m {
        LogMetadata::CrateName => build_crate_name(d, p),
        // The components are looked for when they are shown: most templates name no `{f}`.
        LogMetadata::FileName(n) => or_fixed(
            p,
            Field::File,
            Wording::Components(p.file_from, p.file_to, usize::from(n)),
            Fixed::File,
        ),
        LogMetadata::FilePath => or_fixed(
            p,
            Field::File,
            Wording::Part(p.file_from, p.file_to),
            Fixed::File,
        ),
        LogMetadata::LineNumber => Wording::Number(p.line),
        LogMetadata::Log => Wording::Part(p.message_from, p.message_to),
        LogMetadata::LogLevel => Wording::Fixed(build_log_level(level_of(p.level))),
        LogMetadata::ModulePath => or_fixed(
            p,
            Field::Module,
            Wording::Part(p.module_from, p.module_to),
            Fixed::ModulePath,
        ),
        LogMetadata::Timestamp => build_timestamp(p),
        // "`<head>` when absent": a serial that is present and empty shows nothing.
        LogMetadata::HeadSerial => or_fixed(
            p,
            Field::Serial,
            Wording::Part(p.serial_from, p.serial_to),
            Fixed::Head,
        ),
    }
}

// The comparison that a record's message is, by its places: "Take it over for device messages".
#[tactic(auto, unfolding(crate::specs::Lines::compared_from, record::specs::Placed::laid_by, record::specs::Computing::computes, comparisons::specs::Places::layout_by, comparisons::specs::Places::layout_for))]
pub fn comparison_of(d: &[u8], p: Places) -> Option<Spans>
    requires { PlacesWithin (length d.now) p }
    ensures { Compares d.now p result }
{
    match source_of(p.source) {
        Source::Defmt => comparison_in(d, p.message_from, p.message_to),
        Source::Host => None,
    }
}

// The name that the level number was taken apart into, as a fixed text; a print has none.
fn build_log_level(l: Level) -> Fixed
    ensures { fixed_text result ≡ name_of l }
{
    match l {
        Level::Named(name, _) => Fixed::Level(name),
        Level::Print | Level::Refused => Fixed::Empty,
    }
}

// "an empty timestamp or a host record gives `<time>`"
#[tactic(auto, unfolding(crate::specs::Texts::time_of, crate::specs::Texts::not_empty, crate::specs::Texts::wording, crate::specs::Texts::there, crate::specs::Texts::or_placeholder, crate::specs::Wordings::bytes_of, record::specs::Placed::laid_by, record::specs::Computing::computes))]
fn build_timestamp(p: Places) -> Wording
    ensures { WordedAnywhere p LogMetadata.Timestamp result }
{
    match source_of(p.source) {
        Source::Defmt if p.timestamp_from < p.timestamp_to => Wording::Part(
            p.timestamp_from,
            p.timestamp_to,
        ),
        _ => Wording::Fixed(Fixed::Time),
    }
}

// What is shown of a field that may be absent, or its placeholder where the mask doesn't mark it.
fn or_fixed(p: Places, field: Field, there: Wording, placeholder: Fixed) -> Wording
    ensures { result ≡ cond (marks p.mask field) there (Wording.Fixed placeholder) }
{
    if marks(p.mask, field) {
        there
    } else {
        Wording::Fixed(placeholder)
    }
}

#[tactic(auto, unfolding(crate::specs::Texts::wording, crate::specs::Texts::there, crate::specs::Texts::or_placeholder, crate::specs::Wordings::bytes_of, record::specs::Placed::laid_by, record::specs::Computing::computes))]
fn build_crate_name(d: &[u8], p: Places) -> Wording
    requires { PlacesWithin (length d.now) p }
    ensures { Worded p LogMetadata.CrateName result d.now }
{
    if marks(p.mask, Field::Module) {
        return before_colons(d, p.module_from, p.module_to);
    }
    Wording::Fixed(Fixed::Crate)
}

// "the module before the first `::`, or `<crate>` without one"
fn before_colons(d: &[u8], from: usize, to: usize) -> Wording
    requires { (from ≤ to) × (to ≤ length d.now) }
    ensures { Tells result d.now (or_placeholder no_crate (before_colons (part from to d.now))) }
{
    match colons_in(&d[from..to]) {
        Some(n) => Wording::Part(from, from + n),
        None => Wording::Fixed(Fixed::Crate),
    }
}

// Where the first `::` stands.
fn colons_in(t: &[u8]) -> Option<usize>
    ensures { FirstColons t.now result }
{
    t.windows(2).position(|w| matches!(w, b"::"))
}
