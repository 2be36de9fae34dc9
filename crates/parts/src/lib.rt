// What a list of words gives: a specifier, and how it asks to be written (in the crate: a part of `build_log_segment`).
#![tactic(auto)]

ghost use Rattle.std.specs.Prelude.{◌≡◌};
ghost use Rattle.parts.specs.Parts.{no_parts, has_style, with_style, asking, asks, with_specifier, with_parameter};

use words::{LogFormat, LogMetadata, Parameter, Style, Styles};

// What a list of words has given so far; `twice` once anything was given a second time. That is told beside it (d): the list is refused, or misfits, only where
// it makes its segment.
#[derive(Clone, Copy, Default)]
pub struct Parts {
    pub format: LogFormat,
    pub metadata: Option<LogMetadata>,
    pub twice: bool,
}

// Nothing read yet.
pub fn no_parts() -> Parts
    ensures { result ≡ no_parts }
{
    Parts::default()
}

fn has_style(s: Styles, y: Style) -> bool
    ensures { result ≡ has_style s y }
{
    match y {
        Style::Bold => s.bold,
        Style::Dimmed => s.dimmed,
        Style::Underline => s.underline,
        Style::Italic => s.italic,
        Style::Strike => s.strike,
    }
}

fn with_style(s: Styles, y: Style) -> Styles
    ensures { result ≡ with_style s y }
{
    match y {
        Style::Bold => Styles { bold: true, ..s },
        Style::Dimmed => Styles { dimmed: true, ..s },
        Style::Underline => Styles {
            underline: true,
            ..s
        },
        Style::Italic => Styles { italic: true, ..s },
        Style::Strike => Styles { strike: true, ..s },
    }
}

fn asking_for(f: LogFormat, a: Parameter) -> LogFormat
    ensures { result ≡ asking f a }
{
    match a {
        Parameter::Color(c) => LogFormat {
            color: Some(c),
            ..f
        },
        Parameter::Style(y) => LogFormat {
            styles: with_style(f.styles, y),
            ..f
        },
        Parameter::WidthAndAlignment(n, padding, alignment) => LogFormat {
            width: Some(n),
            padding,
            alignment,
            ..f
        },
    }
}

fn asks_already(f: LogFormat, a: Parameter) -> bool
    ensures { result ≡ asks f a }
{
    match a {
        Parameter::Color(_) => f.color.is_some(),
        Parameter::Style(y) => has_style(f.styles, y),
        Parameter::WidthAndAlignment(_, _, _) => f.width.is_some(),
    }
}

// A specifier more.
#[tactic(auto, unfolding(crate::specs::Parts::with_specifier))]
pub fn with_specifier(p: Parts, m: LogMetadata) -> Parts
    ensures { result ≡ with_specifier p m }
{
    Parts {
        metadata: Some(m),
        twice: p.metadata.is_some() || p.twice,
        ..p
    }
}

// A parameter more.
#[tactic(auto, unfolding(crate::specs::Parts::with_parameter))]
pub fn with_parameter(p: Parts, a: Parameter) -> Parts
    ensures { result ≡ with_parameter p a }
{
    Parts {
        format: asking_for(p.format, a),
        twice: asks_already(p.format, a) || p.twice,
        ..p
    }
}
