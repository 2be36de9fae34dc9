// The walk along the records of an open sheet.
ghost use Rattle.std.specs.Prelude.{◌≡◌, ◌≤◌, ◌<◌, ◌^◌, length};
ghost use Rattle.buffer.specs.Buffer.{put_at};
ghost use Rattle.session.specs.Walking.{records_of, lines_by};

use super::Sheet;
use answer::Reading;
use outcomes::{outcome_length, put_outcome};

// How many bytes are written for all records: at most 65,535 lines of at most 65,537 bytes. It is apart from `put_records`, as in outcomes (d).
pub(crate) fn records_length(sheet: &Sheet<'_>, reading: &Reading<'_>) -> usize
    ensures { (result ≡ length (lines_by reading.now (records_of sheet.now))) × (result < 2 ^ 56) }
{
    let mut sum = 0;
    for body in sheet.records() {
        sum += outcome_length(reading, body);
    }
    sum
}

// Writes them at the front of a buffer that holds them.
pub(crate) fn put_records(sheet: &Sheet<'_>, reading: &Reading<'_>, out: &mut [u8])
    requires { length (lines_by reading.now (records_of sheet.now)) ≤ length out.old }
    ensures { out.new ≡ put_at out.old 0 (lines_by reading.now (records_of sheet.now)) }
{
    let mut at = 0;
    for body in sheet.records() {
        at = put_outcome(reading, body, out, at);
    }
}
