// The checks of a record: refusal 14, then 11 and 12 for each text in turn. Bytes and places stay two parameters (d): each check reads one text or
// places alone, and would take a type for both apart at once, while clauses speak of the record that they are either way (`laid_by p d`).
#![tactic(auto)]

ghost use Rattle.std.specs.Prelude.{◌≡◌, ◌≤◌, ◌||◌, ltb, length};
ghost use Rattle.record.specs.Placed.{laid_by, PlacesWithin};
ghost use Rattle.checks.specs.Checks.{host_without_level, most_mask, bad_numbers, absent_but_there, absent_field, badly_marked, field_refusal, fields_refusal, record_refusal};
ghost use Rattle.checks.specs.Told.{tell_checked};

use record::levels::level_of;
use record::marks::{Field, marks};
use record::{Form, Level, Places};
use refusals::Refusal;
use utf8::is_utf8;

// "a field over 4,096 bytes"; "11 for the serial starts at 33 bytes"
const MOST_FIELD: usize = 4096;

const MOST_SERIAL: usize = 32;

// "level over 5, host without level": what the number means says which. Each kind has an answer of its own (d).
fn bad_level(source: usize, number: usize) -> bool
    ensures { result ≡ (ltb 5 number || host_without_level source number) }
{
    match level_of(number) {
        Level::Print => source == 1,
        Level::Named(_, _) => false,
        Level::Refused => true,
    }
}

#[tactic(auto, unfolding(crate::specs::Checks::absent_but_there))]
fn absent_but_there(present: bool, n: usize) -> bool
    ensures { result ≡ absent_but_there present n }
{
    !present && n != 0
}

// "14 now starts at mask 16, and in old sheets still at 8"
fn most_mask(form: Form) -> usize
    ensures { result ≡ most_mask form }
{
    match form {
        Form::Old => 7,
        Form::New => 15,
    }
}

// "source over 1, level over 5, host without level", and a presence mask over the most
#[tactic(auto, unfolding(crate::specs::Checks::bad_numbers))]
fn bad_numbers(most: usize, source: usize, level: usize, mask: usize) -> bool
    ensures { result ≡ bad_numbers most source level mask }
{
    1 < source || bad_level(source, level) || most < mask
}

// "an absent field with a non-zero length or line"
#[tactic(auto, using(crate::proofs::Refusing::absent_told))]
fn absent_field(d: &[u8], p: Places) -> bool
    requires { PlacesWithin (length d.now) p }
    ensures { result ≡ absent_field (laid_by p d.now) }
{
    absent_but_there(marks(p.mask, Field::File), p.file_to - p.file_from)
        || absent_but_there(marks(p.mask, Field::Line), p.line)
        || absent_but_there(marks(p.mask, Field::Module), p.module_to - p.module_from)
        || absent_but_there(marks(p.mask, Field::Serial), p.serial_to - p.serial_from)
}

// Refusal 14.
#[tactic(auto, unfolding(crate::specs::Checks::badly_marked, record::specs::Placed::laid_by))]
fn badly_marked(form: Form, d: &[u8], p: Places) -> bool
    requires { PlacesWithin (length d.now) p }
    ensures { result ≡ badly_marked form (laid_by p d.now) }
{
    bad_numbers(most_mask(form), p.source, p.level, p.mask) || absent_field(d, p)
}

// Refusals 11 and 12 of one text: a length is told before the bytes are gone through.
#[tactic(auto, unfolding(crate::specs::Checks::field_refusal, crate::specs::Told::tell_checked))]
fn check_field(most: usize, t: &[u8]) -> Result<(), Refusal>
    ensures { tell_checked result ≡ field_refusal most t.now }
{
    if most < t.len() {
        return Err(Refusal::FieldTooLong);
    }
    if !is_utf8(t) {
        return Err(Refusal::FieldNotUtf8);
    }
    Ok(())
}

// "for file, module, timestamp, message in turn 11 before 12"; the serial's "come after the message's"
fn check_fields(d: &[u8], p: Places) -> Result<(), Refusal>
    requires { PlacesWithin (length d.now) p }
    ensures { tell_checked result ≡ fields_refusal (laid_by p d.now) }
{
    check_field(MOST_FIELD, &d[p.file_from..p.file_to])?;
    check_field(MOST_FIELD, &d[p.module_from..p.module_to])?;
    check_field(MOST_FIELD, &d[p.timestamp_from..p.timestamp_to])?;
    check_field(MOST_FIELD, &d[p.message_from..p.message_to])?;
    check_field(MOST_SERIAL, &d[p.serial_from..p.serial_to])
}

// The first refusal that a record meets: 14 before those of its texts.
#[tactic(auto, unfolding(crate::specs::Checks::record_refusal, crate::specs::Told::tell_checked))]
pub fn check_record(form: Form, d: &[u8], p: Places) -> Result<(), Refusal>
    requires { PlacesWithin (length d.now) p }
    ensures { tell_checked result ≡ record_refusal form (laid_by p d.now) }
{
    if badly_marked(form, d, p) {
        return Err(Refusal::NotARecord);
    }
    check_fields(d, p)
}
