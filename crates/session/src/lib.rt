// A whole session: the lines of all records of a sheet, or the refusal of the sheet.
#![tactic(auto)]

ghost use Rattle.std.specs.Prelude.{◌≡◌, length};
ghost use Rattle.packing.specs.Packing.{Packable};
ghost use Rattle.answer.specs.Answers.{in_room, answer_of, buffer_after};
ghost use Rattle.outcomes.specs.Program.{session_entry};
ghost use Rattle.sheet.specs.Sheets.{is_sheet};
ghost use Rattle.session.specs.Walking.{sheet_or, records_of, lines_by};

use answer::Reading;
use packing::Answer;
use refusals::Refusal;
use segments::EMPTY;
use sheet::is_sheet;
use std::marker::Model;
use walking::{put_records, records_length};

mod bodies;
mod opening;
pub mod records;
mod walking;

// Bytes that are a sheet. A contract sees the bytes.
#[derive(Drop)]
pub struct Sheet<'a> {
    bytes: &'a [u8],
}

impl<'a> Model for Sheet<'a> {
    ghost use Rattle.std.specs.Prelude.{◌≡◌, true, ℕ, List};
    ghost use Rattle.sheet.specs.Sheets.{is_sheet};

    ghost Value = { List ℕ };

    ghost view = { λ s. s.bytes.now };

    ghost invariant = { λ s. is_sheet s.bytes.now ≡ true };
}

// The sheet that the bytes d are, or refusal 15.
pub fn sheet_in(d: &[u8]) -> Result<Sheet<'_>, Refusal>
    ensures { result ≡ sheet_or (is_sheet d.now) d.now }
{
    if !is_sheet(d) {
        return Err(Refusal::NotASheet);
    }
    Ok(Sheet { bytes: d })
}

// The lines of all records of the sheet d, at the front of the lent buffer; or a refusal, and the buffer as it was.
pub fn session(d: &[u8], out: &mut [u8]) -> Answer
    ensures answer { result ≡ answer_of (session_entry d.now out.old) }
    ensures buffer { out.new ≡ buffer_after out.old (session_entry d.now out.old) }
    ensures packable { Packable result }
{
    let sheet = sheet_in(d)?;
    let mut cells = [EMPTY; 64];
    let n = sheet.open(&mut cells)?;
    all_records(&sheet, &sheet.reading(&cells, n), out)
}

// The lines are measured first: where there is no room for all of them, none is written.
fn all_records(sheet: &Sheet<'_>, reading: &Reading<'_>, out: &mut [u8]) -> Answer
    ensures answer { result ≡ answer_of (in_room (length out.old) (lines_by reading.now (records_of sheet.now))) }
    ensures buffer { out.new ≡ buffer_after out.old (in_room (length out.old) (lines_by reading.now (records_of sheet.now))) }
    ensures packable { Packable result }
{
    let len = records_length(sheet, reading);
    if out.len() < len {
        return Err(Refusal::LineTooLong(len));
    }
    put_records(sheet, reading, out);
    Ok(len)
}
