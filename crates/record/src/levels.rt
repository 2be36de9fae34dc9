// The source and the level that a record's numbers mean.
ghost use Rattle.std.specs.Prelude.{◌≡◌};
ghost use Rattle.record.specs.Levels.{level_of};
ghost use Rattle.record.specs.Contents.{source_of};

use super::{Level, Name, Source};
use words::Color;

// "Level numbers 1 to 5 mean ERROR, WARN, INFO, DEBUG, TRACE, coloured red, yellow, green, bright white, bright black; 0 is a print without level".
// The only place that takes a level number apart, by a match with ranges, which document 01 names (a): checks, names and colours go by what it answers.
// By name and not by `From` (a): docs/CONTRACTS.md has the function (`level_of_settled`).
#[tactic(auto, using(crate::proofs::LevelNumbers::over_five), unfolding(crate::specs::Levels::level_of, crate::specs::Levels::level_in))]
pub fn level_of(n: usize) -> Level
    ensures { result ≡ level_of n }
{
    match n {
        0..=0 => Level::Print,
        1 => Level::Named(Name::Error, Color::Red),
        2 => Level::Named(Name::Warn, Color::Yellow),
        3 => Level::Named(Name::Info, Color::Green),
        4 => Level::Named(Name::Debug, Color::BrightWhite),
        5 => Level::Named(Name::Trace, Color::BrightBlack),
        6.. => Level::Refused,
    }
}

// "0 device, 1 host". By name, as `level_of` is (a).
#[tactic(auto, unfolding(crate::specs::Contents::source_of))]
pub fn source_of(n: usize) -> Source
    ensures { result ≡ source_of n }
{
    if n == 0 { Source::Defmt } else { Source::Host }
}
