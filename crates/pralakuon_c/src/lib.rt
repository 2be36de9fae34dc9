// What the tablet's host calls: every entry takes numbers and lent bytes, and none asks anything of them.
#![tactic(auto)]

ghost use Rattle.std.specs.Prelude.{◌≡◌, ◌*◌, length};
ghost use Rattle.answer.specs.Answers.{in_room, Meets, line_entry};
ghost use Rattle.checking.specs.Templates.{check_entry, timestamp_entry};
ghost use Rattle.outcomes.specs.Program.{session_entry};
ghost use Rattle.builtin.specs.Choices.{chosen};
ghost use Rattle.visible.specs.Visible.{visible_entry};
ghost use Rattle.pralakuon_c.specs.Version.{version};

use builtin::put_chosen;
use checking::{check_template, names_timestamp};
use packing::{answer_in, pack};
use session::session;
use visible::visible_text;

// The same three numbers stand in include/pralakuon.h and in host/Cargo.toml.
const MAJOR: u64 = 0;

const MINOR: u64 = 6;

const PATCH: u64 = 1;

// The line of the record d by the template t.
#[unsafe(no_mangle)]
pub extern "C" fn pralakuon_line(t: &[u8], settings: u8, d: &[u8], out: &mut [u8]) -> u64
    ensures { Meets (line_entry t.now settings d.now out.old) out.old out.new result }
{
    pack(answer::line(t, settings, d, out))
}

// The lines of all records of the sheet d.
#[unsafe(no_mangle)]
pub extern "C" fn pralakuon_session(d: &[u8], out: &mut [u8]) -> u64
    ensures { Meets (session_entry d.now out.old) out.old out.new result }
{
    pack(session(d, out))
}

// Whether the template t is read, in the edition that the settings ask for.
#[unsafe(no_mangle)]
pub extern "C" fn pralakuon_check(t: &[u8], settings: u8) -> u64
    ensures { result ≡ check_entry t.now settings }
{
    check_template(t, settings)
}

// Whether it names the time.
#[unsafe(no_mangle)]
pub extern "C" fn pralakuon_timestamp(t: &[u8], settings: u8) -> u64
    ensures { result ≡ timestamp_entry t.now settings }
{
    names_timestamp(t, settings)
}

// A built-in template.
#[unsafe(no_mangle)]
pub extern "C" fn pralakuon_builtin(
    style: u8,
    location: u8,
    timestamp: u8,
    host: u8,
    out: &mut [u8],
) -> u64
    ensures { Meets (in_room (length out.old) (chosen style location timestamp host)) out.old out.new result }
{
    let room = out.len();
    let n = put_chosen(style, location, timestamp, host, out);
    pack(answer_in(room, n))
}

// What is visible of the text s.
#[unsafe(no_mangle)]
pub extern "C" fn pralakuon_visible(s: &[u8], out: &mut [u8]) -> u64
    ensures { Meets (visible_entry s.now out.old) out.old out.new result }
{
    pack(visible_text(s, out))
}

// Which version this is: a caller that was made for another must not call on.
#[unsafe(no_mangle)]
pub extern "C" fn pralakuon_version() -> u64
    ensures { result ≡ 256 * version }
{
    256 * (65536 * MAJOR + 256 * MINOR + PATCH)
}
