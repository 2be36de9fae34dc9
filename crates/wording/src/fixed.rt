// Placeholders and the names of levels.
ghost use Rattle.std.specs.Prelude.{◌≡◌};
ghost use Rattle.wording.specs.Names.{Stands};
ghost use Rattle.record.specs.Levels.{level_name};
ghost use Rattle.fields.specs.Wordings.{fixed_text};

use fields::Fixed;
use record::Name;

#[tactic(auto, unfolding(fields::specs::Wordings::fixed_text))]
pub(crate) fn text_of(x: Fixed) -> &'static [u8]
    ensures { result.now ≡ fixed_text x }
{
    match x {
        Fixed::Empty => b"",
        Fixed::Crate => b"<crate>",
        Fixed::File => b"<file>",
        Fixed::ModulePath => b"<mod path>",
        Fixed::Time => b"<time>",
        Fixed::Head => b"<head>",
        Fixed::Level(name) => level_name(name),
    }
}

// The names of the levels, one after another. They are told by places (a): of slices the compiler makes a table of addresses, and the archive promises that
// it has no data.
static NAMES: [u8; 23] = *b"ERRORWARNINFODEBUGTRACE";

// Where one of them stands.
fn place_of(name: Name) -> (usize, usize)
    ensures { Stands (level_name name) result.0 result.1 }
{
    match name {
        Name::Error => (0, 5),
        Name::Warn => (5, 9),
        Name::Info => (9, 13),
        Name::Debug => (13, 18),
        Name::Trace => (18, 23),
    }
}

fn level_name(name: Name) -> &'static [u8]
    ensures { result.now ≡ level_name name }
{
    let (from, to) = place_of(name);
    &NAMES[from..to]
}
