// A template alone: whether it is read, and whether it names the time.
#![tactic(auto)]

ghost use Rattle.std.specs.Prelude.{◌≡◌, ◌≤◌, length};
ghost use Rattle.template.specs.Parsing.{tell_parsed, ParsedKeeps};
ghost use Rattle.checking.specs.Templates.{template_asked, check_entry, timestamp_entry};

use packing::pack;
use refusals::Refusal;
use segments::{Cell, EMPTY};
use settings::{edition_of, is_known};
use template::{format_has_timestamp, parse};

// The template in the edition that the settings byte asks for.
fn parse_asked(t: &[u8], settings: u8, cells: &mut [Cell]) -> Result<usize, Refusal>
    requires { 64 ≤ length cells.old }
    ensures cells_after { tell_parsed result cells.new ≡ template_asked settings t.now }
    ensures keeps { ParsedKeeps cells.new result }
{
    if is_known(settings) {
        return parse(edition_of(settings), t, cells);
    }
    Err(Refusal::NotASheet)
}

// 0 for a template that is read, else its refusal.
pub fn check_template(t: &[u8], settings: u8) -> u64
    ensures { result ≡ check_entry t.now settings }
{
    let mut cells = [EMPTY; 64];
    pack(parse_asked(t, settings, &mut cells).map(|_| 0))
}

// A length of 1 where the template names the time and of 0 where it doesn't, or its refusal: the C interface has it so (a).
pub fn names_timestamp(t: &[u8], settings: u8) -> u64
    ensures { result ≡ timestamp_entry t.now settings }
{
    let mut cells = [EMPTY; 64];
    let read = parse_asked(t, settings, &mut cells);
    pack(read.map(|n| usize::from(format_has_timestamp(&cells, n))))
}
