// What is given instead of a line: the refusals of documents 01 and 02 by name, and their numbers.
#![tactic(auto)]

ghost use Rattle.std.specs.Prelude.{◌≡◌, ◌≤◌};
ghost use Rattle.refusals.specs.Numbers.{number, value_with};

#[derive(Clone, Copy)]
pub enum Refusal {
    TemplateTooLong,
    TemplateNotUtf8,
    Failure,
    NoMessage,
    TooManySegments,
    TooDeep,
    TooWide,
    TooManyF,
    HalfEscape,
    FieldTooLong,
    FieldNotUtf8,
    LineTooLong(usize),
    NotARecord,
    NotASheet,
    Dropped(usize),
}

// The number of a refusal, by the C interface. They are written out (d): two of the kinds carry a number, and in such an enum no kind may be given one.
pub fn number_of(r: Refusal) -> u8
    ensures { (result ≡ number r) × (result ≤ 17) }
{
    match r {
        Refusal::TemplateTooLong => 1,
        Refusal::TemplateNotUtf8 => 2,
        Refusal::Failure => 3,
        Refusal::NoMessage => 4,
        Refusal::TooManySegments => 5,
        Refusal::TooDeep => 6,
        Refusal::TooWide => 7,
        Refusal::TooManyF => 8,
        Refusal::HalfEscape => 9,
        Refusal::FieldTooLong => 11,
        Refusal::FieldNotUtf8 => 12,
        Refusal::LineTooLong(_) => 13,
        Refusal::NotARecord => 14,
        Refusal::NotASheet => 15,
        Refusal::Dropped(_) => 17,
    }
}

// What a refusal tells besides its number: the length of a line that is too long, the place of what a template drops.
// No `Option` (a): the C interface gives it with the number in one `u64`, where 0 is what the others tell.
pub fn value_with(r: Refusal) -> usize
    ensures { result ≡ value_with r }
{
    match r {
        Refusal::LineTooLong(n) => n,
        Refusal::Dropped(p) => p,
        _ => 0,
    }
}
