// The words of a template: names and numbers, under the crate's names.
#![tactic(auto)]

use refusals::Refusal;

pub mod parser;

// What a specifier shows.
#[derive(Clone, Copy, PartialEq, Eq)]
pub enum LogMetadata {
    CrateName,
    FileName(u8),
    FilePath,
    LineNumber,
    Log,
    LogLevel,
    ModulePath,
    Timestamp,
    HeadSerial,
}

// The foreground colours that a line can hold. No word asks for the last two: they are the colours of levels.
#[derive(Clone, Copy)]
pub enum Color {
    Black,
    Red,
    Green,
    Yellow,
    Blue,
    Magenta,
    Cyan,
    White,
    BrightBlack,
    BrightWhite,
}

// A colour that a segment asks for.
#[derive(Clone, Copy)]
pub enum LogColor {
    Color(Color),
    SeverityLevel,
    WarnError,
}

#[derive(Clone, Copy)]
pub enum Style {
    Bold,
    Italic,
    Underline,
    Strike,
    Dimmed,
}

#[derive(Clone, Copy, Default)]
pub enum Alignment {
    #[default]
    Left,
    Center,
    Right,
}

#[derive(Clone, Copy, Default)]
pub enum Padding {
    #[default]
    Space,
    Zero,
}

#[derive(Clone, Copy, Default)]
pub struct Styles {
    pub bold: bool,
    pub dimmed: bool,
    pub underline: bool,
    pub italic: bool,
    pub strike: bool,
}

// How a specifier or a group asks to be written; a width is 512 at most. What is copied from reader to reader holds its numbers narrow.
#[derive(Clone, Copy, Default)]
pub struct LogFormat {
    pub styles: Styles,
    pub alignment: Alignment,
    pub padding: Padding,
    pub color: Option<LogColor>,
    pub width: Option<u16>,
}

// One parameter of a specifier or a group.
#[derive(Clone, Copy)]
pub enum Parameter {
    Color(LogColor),
    Style(Style),
    WidthAndAlignment(u16, Padding, Alignment),
}

// What comes of trying to read something: the place after it and what it is, nothing where it doesn't fit, or a refusal.
pub type Read<T> = Result<Option<(usize, T)>, Refusal>;
