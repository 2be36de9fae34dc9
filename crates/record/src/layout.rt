// Where a record's texts stand in its bytes.
ghost use Rattle.std.specs.Prelude.{◌≡◌, true, ◌≤◌, ◌<◌, length};
ghost use Rattle.record.specs.Layout.{texts, serial_length, right_size};
ghost use Rattle.record.specs.Placed.{places_in, PlacesWithin};

use super::numbers::{u16_at, u32_at};
use super::{Form, Places};

// Where the texts begin.
fn texts_of(form: Form) -> usize
    ensures { result ≡ texts form }
{
    match form {
        Form::Old => 15,
        Form::New => 17,
    }
}

// The length of the serial; an old record has none.
fn serial_length(form: Form, d: &[u8]) -> usize
    requires { texts form ≤ length d.now }
    ensures { (result ≡ serial_length form d.now) × (result < 65536) }
{
    match form {
        Form::Old => 0,
        Form::New => u16_at(d, 15),
    }
}

// Whether the lengths account for every byte after them.
pub fn right_size(form: Form, d: &[u8]) -> bool
    ensures { result ≡ right_size form d.now }
{
    let from = texts_of(form);
    if d.len() < from {
        return false;
    }
    let message_to = from + u16_at(d, 7) + u16_at(d, 9) + u16_at(d, 11) + u16_at(d, 13);
    message_to + serial_length(form, d) == d.len()
}

// The places of a record of the right size: by them it is the record that is laid out (`laid_places`).
pub fn places_in(form: Form, d: &[u8]) -> Places
    requires { right_size form d.now ≡ true }
    ensures value { result ≡ places_in form d.now }
    ensures within { PlacesWithin (length d.now) result }
{
    let from = texts_of(form);
    let file_to = from + u16_at(d, 7);
    let module_to = file_to + u16_at(d, 9);
    let timestamp_to = module_to + u16_at(d, 11);
    let message_to = timestamp_to + u16_at(d, 13);
    let serial_to = message_to + serial_length(form, d);
    Places {
        source: usize::from(d[0]),
        level: usize::from(d[1]),
        mask: usize::from(d[2]),
        line: u32_at(d, 3),
        file_from: from,
        file_to,
        module_from: file_to,
        module_to,
        timestamp_from: module_to,
        timestamp_to,
        message_from: timestamp_to,
        message_to,
        serial_from: message_to,
        serial_to,
    }
}
