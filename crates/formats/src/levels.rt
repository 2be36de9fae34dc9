// The colours of levels.
ghost use Rattle.std.specs.Prelude.{◌≡◌};
ghost use Rattle.formats.specs.Levels.{severity, warning};

use record::{Level, Name};
use words::Color;

// The colour that the level number was taken apart into.
pub(crate) fn color_for_log_level(l: Level) -> Option<Color>
    ensures { result ≡ severity l }
{
    match l {
        Level::Named(_, c) => Some(c),
        _ => None,
    }
}

// "`werror` colours 1 and 2 only"
pub(crate) fn color_for_warnings(l: Level) -> Option<Color>
    ensures { result ≡ warning l }
{
    match l {
        Level::Named(Name::Error | Name::Warn, c) => Some(c),
        _ => None,
    }
}
