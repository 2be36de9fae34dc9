// The settings byte.
#![tactic(auto)]

ghost use Rattle.std.specs.Prelude.{◌≡◌};
ghost use Rattle.settings.specs.Bits.{is_known, settings_of, rule_of, edition_of, form_of};

use colour::Settings;
use record::Form;
use template::Edition;
use widths::Rule;

// The bits: "a settings byte (1 colour, 2 straight, others zero)", and the three that came later.
const COLOUR: u8 = 1;

const STRAIGHT: u8 = 2;

const STRICT: u8 = 4;

const NEW_FORM: u8 = 8;

const PLACES: u8 = 16;

// Whether all bits of the byte are known.
#[tactic(auto, unfolding(crate::specs::Bits::is_known))]
pub fn is_known(b: u8) -> bool
    ensures { result ≡ is_known b }
{
    b < 32
}

// How the byte's bits have lines coloured and padded.
pub fn settings_of(b: u8) -> Settings
    ensures { result ≡ settings_of b }
{
    Settings {
        colour: b & COLOUR != 0,
        straight: b & STRAIGHT != 0,
        rule: rule_of(b),
    }
}

// The width rule that the byte's bits choose. This and the two below share the test of a bit alone: a function of it would save none of their lines (d).
fn rule_of(b: u8) -> Rule
    ensures { result ≡ rule_of b }
{
    if b & PLACES != 0 {
        Rule::Places
    } else {
        Rule::Characters
    }
}

// The edition of the template rules that the byte's bits choose.
pub fn edition_of(b: u8) -> Edition
    ensures { result ≡ edition_of b }
{
    if b & STRICT != 0 {
        Edition::Strict
    } else {
        Edition::First
    }
}

// The form that the byte's bits say records are laid out in.
pub fn form_of(b: u8) -> Form
    ensures { result ≡ form_of b }
{
    if b & NEW_FORM != 0 {
        Form::New
    } else {
        Form::Old
    }
}
