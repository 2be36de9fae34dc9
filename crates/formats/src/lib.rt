// The format of a specifier or a group: what is asked for, with defaults and the level's colour in the places left open. The level goes by its
// number: most segments ask for no colour of a level, and then the number isn't taken apart.
#![tactic(auto)]

ghost use Rattle.std.specs.Prelude.{◌≡◌};
ghost use Rattle.record.specs.Levels.{level_of};
ghost use Rattle.formats.specs.Levels.{ink_for};
ghost use Rattle.formats.specs.Formats.{default_width, own_ink, width_for, format_for, specifier_format, group_format};

use colour::{Format, Look};
use levels::{color_for_log_level, color_for_warnings};
use record::levels::level_of;
use words::{Color, LogColor, LogFormat, LogMetadata};

pub mod levels;

pub fn specifier_format(number: usize, m: LogMetadata, f: LogFormat) -> Format
    ensures { result ≡ specifier_format (level_of number) m f }
{
    format_for(number, default_width(m), own_ink(number, m), f)
}

pub fn group_format(number: usize, f: LogFormat) -> Format
    ensures { result ≡ group_format (level_of number) f }
{
    format_for(number, 0, None, f)
}

// What is asked for, over a default width and a colour of its own.
#[tactic(auto, unfolding(crate::specs::Formats::format_for))]
fn format_for(number: usize, width: usize, own: Option<Color>, f: LogFormat) -> Format
    ensures { result ≡ format_for (level_of number) width own f }
{
    Format {
        width: width_for(width, f.width),
        alignment: f.alignment,
        padding: f.padding,
        look: Look {
            styles: f.styles,
            ink: ink_for(number, own, f.color),
        },
    }
}

// "Default widths: `{L}` 5, `{l}` 4, others 0"
fn default_width(m: LogMetadata) -> usize
    ensures { result ≡ default_width m }
{
    match m {
        LogMetadata::LineNumber => 4,
        LogMetadata::LogLevel => 5,
        _ => 0,
    }
}

// "`{L}` takes its level's colour unless another is asked"
fn own_ink(number: usize, m: LogMetadata) -> Option<Color>
    ensures { result ≡ own_ink (level_of number) m }
{
    if m == LogMetadata::LogLevel {
        return color_for_log_level(level_of(number));
    }
    None
}

fn width_for(own: usize, asked: Option<u16>) -> usize
    ensures { result ≡ width_for own asked }
{
    asked.map_or(own, usize::from)
}

// The colour that applies where one is asked for, or a specifier's own where none is.
fn ink_for(number: usize, own: Option<Color>, asked: Option<LogColor>) -> Option<Color>
    ensures { result ≡ ink_for (level_of number) own asked }
{
    match asked {
        Some(LogColor::Color(c)) => Some(c),
        Some(LogColor::SeverityLevel) => color_for_log_level(level_of(number)),
        Some(LogColor::WarnError) => color_for_warnings(level_of(number)),
        None => own,
    }
}
