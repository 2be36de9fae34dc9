// The line of one record's outcome, by a template that was read.
#![tactic(auto)]

ghost use Rattle.std.specs.Prelude.{◌≡◌, ◌+◌, ◌≤◌, length};
ghost use Rattle.buffer.specs.Buffer.{Puts};
ghost use Rattle.outcomes.specs.Program.{line_room, outcome_line};
ghost use Rattle.answer.specs.Rooms.{outcome_by};

use answer::Reading;
use buffer::put;
use measure::sink::{Count, Place};
use refusing::write_refusal;

pub mod refusing;

// The program's line buffer. A longer line is refused, whatever room there is.
const LINE_ROOM: usize = 65536;

// How many bytes are written for the record d. What measures lends no buffer, and what writes asks for the line: one function for both is no plainer (d).
pub fn outcome_length(reading: &Reading<'_>, d: &[u8]) -> usize
    ensures { (result ≡ length (outcome_line (outcome_by reading.now d.now line_room))) × (result ≤ 65537) }
{
    let a = reading.measure_record(d, LINE_ROOM);
    match a {
        Ok(k) => k + 1,
        Err(r) => write_refusal(r, Count(0), &mut []).0,
    }
}

// Writes them at the place `at`, and returns the place after them.
pub fn put_outcome(reading: &Reading<'_>, d: &[u8], out: &mut [u8], at: usize) -> usize
    requires { at + length (outcome_line (outcome_by reading.now d.now line_room)) ≤ length out.old }
    ensures { Puts out.old out.new at (outcome_line (outcome_by reading.now d.now line_room)) result }
{
    let a = reading.measure_record(d, LINE_ROOM);
    match a {
        Ok(k) => {
            let _ = reading.record_line(d, &mut out[at..]);
            put(out, at + k, b"\n")
        }
        Err(r) => write_refusal(r, Place(at), out).0,
    }
}
