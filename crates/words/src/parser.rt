// The crate's parsers of specifiers and parameters (parser.rs), in its order.
#![tactic(auto, using(crate::proofs::Answers::fitting_on), unfolding(crate::specs::Within::told, crate::specs::Within::Fitting))]

ghost use Rattle.std.specs.Prelude.{◌≡◌, Ok, Some, MatchOption, ⊤, [], ◌∷◌, ◌+◌, ◌-◌, ◌≤◌, ◌<◌, length};
ghost use Rattle.buffer.specs.Bytes.{part};
ghost use Rattle.buffer.specs.Table.{lookup};
ghost use Rattle.runs.specs.Runs.{lowered, digits_end};
ghost use Rattle.words.specs.Within.{told_read, found, found_sense, Named, MetadataWithin, FormatWithin};
ghost use Rattle.words.specs.Words.{specifier_of, parameter_of, either, level_colours, colour, colours, styles, sensed, name, specifier_at, padding_of, digits_to, width_at, parameter_at};

use super::{Alignment, Color, LogColor, LogMetadata, Padding, Parameter, Read, Style};
use refusals::Refusal;
use runs::numbers::number_up_to;
use runs::{digits_end, letters_end};
use spelling::{is_repeated_f, word_index};

// The specifier at `from`: the whole run of letters there. Each parser is given the whole template and a range, not a part of it (d), since the places
// that it answers are the template's.
pub fn parse_metadata(t: &[u8], from: usize, to: usize) -> Read<LogMetadata>
    requires { (from ≤ to) × (to ≤ length t.now) }
    ensures result_value { told_read result ≡ specifier_at t.now from to }
    ensures within { MetadataWithin from to result }
{
    let j = letters_end(t, from, to);
    if j - from == 1 {
        return Ok(letter_metadata(t[from]).map(|m| (j, m)));
    }
    file_name(t, from, j)
}

// A specifier of one letter.
#[tactic(auto, unfolding(crate::specs::Computing::computes, crate::specs::Within::found, buffer::specs::Table::lookup, buffer::specs::Bytes::same))]
fn letter_metadata(b: u8) -> Option<LogMetadata>
    ensures value { found_sense result ≡ specifier_of (b ∷ []) }
    ensures named { MatchOption result ⊤ Named }
{
    match b {
        b'c' => Some(LogMetadata::CrateName),
        b'f' => Some(LogMetadata::FileName(1)),
        b'F' => Some(LogMetadata::FilePath),
        b'l' => Some(LogMetadata::LineNumber),
        b's' => Some(LogMetadata::Log),
        b'L' => Some(LogMetadata::LogLevel),
        b'm' => Some(LogMetadata::ModulePath),
        b't' => Some(LogMetadata::Timestamp),
        b'd' => Some(LogMetadata::HeadSerial),
        _ => None,
    }
}

// A specifier of any other number of letters can only be `f` repeated. The crate keeps their number in a u8.
fn file_name(t: &[u8], from: usize, to: usize) -> Read<LogMetadata>
    requires { (from ≤ to) × (to ≤ length t.now) × (to - from ≡ 1 → ⊥) }
    ensures result_value { told_read result ≡ sensed to (specifier_of (part from to t.now)) }
    ensures within { MetadataWithin from to result }
{
    if to <= from || !is_repeated_f(&t[from..to]) {
        return Ok(None);
    }
    let Ok(n) = u8::try_from(to - from) else {
        return Err(Refusal::TooManyF);
    };
    Ok(Some((to, LogMetadata::FileName(n))))
}

// The colour that a word asks for.
#[tactic(auto, using(crate::proofs::Spelled::levels_tell), unfolding(crate::specs::Within::found))]
fn parse_color(word: &[u8]) -> Option<LogColor>
    ensures { found Parameter.Color result ≡ either (lookup level_colours word.now) (lookup colours (lowered word.now)) }
{
    match word {
        b"severity" => Some(LogColor::SeverityLevel),
        b"werror" => Some(LogColor::WarnError),
        _ => Some(LogColor::Color(color_from_str(word)?)),
    }
}

// The crate's `colored::Color::from_str`, less the colours that its names cannot say: a name is letters only. The names stand in a table (d): they are
// compared in any case, and a `match` would want a lowered copy of the word first.
fn color_from_str(word: &[u8]) -> Option<Color>
    ensures { found colour result ≡ lookup colours (lowered word.now) }
{
    const COLORS: [Color; 9] = [
        Color::Black,
        Color::Red,
        Color::Green,
        Color::Yellow,
        Color::Blue,
        Color::Magenta,
        Color::Magenta,
        Color::Cyan,
        Color::White,
    ];
    let lengths = [5, 3, 5, 6, 4, 7, 6, 4, 5];
    let letters = b"blackredgreenyellowbluemagentapurplecyanwhite";
    let i = word_index(&lengths, letters, word, true)?;
    Some(COLORS[i])
}

// The style that a word asks for.
#[tactic(auto, using(crate::proofs::Spelled::styles_tell), unfolding(crate::specs::Within::found))]
fn parse_style(word: &[u8]) -> Option<Style>
    ensures { found Parameter.Style result ≡ lookup styles word.now }
{
    match word {
        b"bold" => Some(Style::Bold),
        b"italic" => Some(Style::Italic),
        b"underline" => Some(Style::Underline),
        b"strike" => Some(Style::Strike),
        b"dimmed" => Some(Style::Dimmed),
        _ => None,
    }
}

#[tactic(auto, unfolding(crate::specs::Words::padding_of))]
fn padding(b: u8) -> Padding
    ensures { result ≡ padding_of (b ∷ []) }
{
    if b == b'0' {
        Padding::Zero
    } else {
        Padding::Space
    }
}

// The widest width that may be asked for.
const WIDEST: u16 = 512;

// The width that the digits at `from` say.
fn parse_digits(t: &[u8], from: usize, to: usize, alignment: Alignment) -> Read<Parameter>
    requires { (from ≤ to) × (to ≤ length t.now) }
    ensures result_value { told_read result ≡ digits_to alignment t.now from (digits_end t.now from to) }
    ensures within { FormatWithin from to result }
{
    let j = digits_end(t, from, to);
    if j <= from {
        return Ok(None);
    }
    let Some(n) = number_up_to(WIDEST, &t[from..j]) else {
        return Err(Refusal::TooWide);
    };
    let z = padding(t[from]);
    Ok(Some((j, Parameter::WidthAndAlignment(n, z, alignment))))
}

// Left alignment is the default.
fn parse_width_and_alignment(t: &[u8], from: usize, to: usize) -> Read<Parameter>
    requires { (from ≤ to) × (to ≤ length t.now) }
    ensures result_value { told_read result ≡ width_at t.now from to }
    ensures within { FormatWithin from to result }
{
    if to <= from {
        return Ok(None);
    }
    match t[from] {
        b'^' => parse_digits(t, from + 1, to, Alignment::Center),
        b'<' => parse_digits(t, from + 1, to, Alignment::Left),
        b'>' => parse_digits(t, from + 1, to, Alignment::Right),
        _ => parse_digits(t, from, to, Alignment::Left),
    }
}

// The parameter that the whole run of letters at `from` names.
fn parse_name(t: &[u8], from: usize, to: usize) -> Option<(usize, Parameter)>
    requires { (from ≤ to) × (to ≤ length t.now) }
    ensures result_value { told_read (Ok result) ≡ name parameter_of t.now from to }
    ensures within { FormatWithin from to (Ok result) }
{
    let j = letters_end(t, from, to);
    if j <= from {
        return None;
    }
    let word = &t[from..j];
    match parse_color(word) {
        Some(color) => Some((j, Parameter::Color(color))),
        None => Some((j, Parameter::Style(parse_style(word)?))),
    }
}

// The parameter at `from`: a colour, a style or a width.
pub fn parse_format(t: &[u8], from: usize, to: usize) -> Read<Parameter>
    requires { (from ≤ to) × (to ≤ length t.now) }
    ensures result_value { told_read result ≡ parameter_at t.now from to }
    ensures within { FormatWithin from to result }
{
    match parse_name(t, from, to) {
        Some(named) => Ok(Some(named)),
        None => parse_width_and_alignment(t, from, to),
    }
}
