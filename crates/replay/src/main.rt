// Runs the stored list of the crate's answers through the library, and prints how many cases were run and how many parted.
#![tactic(auto)]

ghost use Rattle.std.specs.Prelude.{◌≡◌, ◌<◌, ◌≤◌, length, IfSome};
ghost use Rattle.outcomes.specs.Program.{session_outcome};
ghost use Rattle.replay.specs.Cases.{lent_room, said_lines, said_refusal, said_outcome, judged, tally_with};

use measure::sink::Place;
use outcomes::refusing::write_refusal;
use refusals::{Refusal, number_of};
use std::io::Read;

// What became of a case.
#[derive(Clone, Copy)]
enum Verdict {
    Same,
    Parted,
    Skipped,
}

#[derive(Clone, Copy, Default)]
struct Tally {
    run: u32,
    parted: u32,
    skipped: u32,
}

fn main(rt: HostRuntime) {
    let mut input = rt.stdin();
    match skip_header(&mut input) {
        Some(()) => run_list(&rt, &mut input),
        None => {
            let _ = println!(rt; "no list");
        }
    }
}

fn run_list(rt: &impl Print, input: &mut impl Read) {
    let mut t = Tally::default();
    // a loop has to end: more turns than any list has cases, and no count is above their number
    for turn in 0..1000000u32 {
        let Some(v) = next_case(input) else {
            break;
        };
        t = tallied(t, v);
    }
    say(rt, "run", t.run);
    say(rt, "parted", t.parted);
    say(rt, "skipped", t.skipped);
}

// What the output doesn't take is lost: there is nowhere else to say it.
fn say(rt: &impl Print, word: &str, n: u32) {
    let _ = println!(rt; "{word} {n}");
}

fn tallied(t: Tally, v: Verdict) -> Tally
    requires { (t.run < 1000000) × ((t.parted < 1000000) × (t.skipped < 1000000)) }
    ensures { result ≡ tally_with t v }
{
    match v {
        Verdict::Same => Tally {
            run: t.run + 1,
            ..t
        },
        Verdict::Parted => Tally {
            run: t.run + 1,
            parted: t.parted + 1,
            ..t
        },
        Verdict::Skipped => Tally {
            skipped: t.skipped + 1,
            ..t
        },
    }
}

// Reads up to the first empty line, if there is one.
fn skip_header(input: &mut impl Read) -> Option<()> {
    let mut last = 0;
    for _ in 0..65536 {
        let b = read_byte(input).unwrap_or(0);
        if b == b'\n' && last == b'\n' {
            return Some(());
        }
        last = b;
    }
    None
}

// The next byte, if there is one. Who asks goes on without it as with a byte 0 (a): what comes after it, if anything does, is looked at all the same.
fn read_byte(input: &mut impl Read) -> Option<u8> {
    let mut one = [0u8; 1];
    input.read_exact(&mut one).ok()?;
    Some(one[0])
}

// A length: four bytes, little-endian.
fn read_length(input: &mut impl Read) -> Option<usize> {
    let mut four = [0u8; 4];
    input.read_exact(&mut four).ok()?;
    Some(u32::from_le_bytes(four) as usize)
}

// The verdict on the next case of the list, if there is one.
fn next_case(input: &mut impl Read) -> Option<Verdict> {
    let n = read_byte(input).unwrap_or(0);
    let mut sheet = [0u8; 65537];
    let size = read_into(input, &mut sheet)?;
    if size == 0 {
        return None;
    }
    let mut output = [0u8; 65537];
    // an output that is cut off is compared as none
    let length = read_into(input, &mut output).unwrap_or(0);
    Some(judge(n, &sheet[..size], &output[..length]))
}

// A length and as many bytes, if the input does not end before them and there is room for them.
fn read_into(input: &mut impl Read, buf: &mut [u8]) -> Option<usize>
    ensures { IfSome result (λ size. size ≤ length buf.new) }
{
    let size = read_length(input)?;
    if buf.len() < size {
        return None;
    }
    input.read_exact(&mut buf[..size]).ok()?;
    Some(size)
}

// The verdict on a case. N 255 is a listed difference: the byte n stands as the stored list has it (a).
fn judge(n: u8, sheet: &[u8], output: &[u8]) -> Verdict
    ensures { result ≡ judged n sheet.now output.now }
{
    if n == 255 {
        return Verdict::Skipped;
    }
    if answers_so(n, sheet, output) {
        return Verdict::Same;
    }
    Verdict::Parted
}

// Whether a session call answers what the case says.
fn answers_so(n: u8, sheet: &[u8], output: &[u8]) -> bool
    ensures { result ≡ said_outcome n output.now (session_outcome sheet.now lent_room) }
{
    // twice what the list holds, so that too long an output is seen
    let mut written = [0u8; 131072];
    let a = session::session(sheet, &mut written);
    match a {
        Ok(k) => lines_so(n, &written[..k], output),
        Err(r) => refused_so(n, r, output),
    }
}

// Whether lines are what it says. N 0: the list's own output; 11 to 14: the refusal of a record; any other N refuses the whole sheet.
fn lines_so(n: u8, lines: &[u8], output: &[u8]) -> bool
    ensures { result ≡ said_lines n output.now lines.now }
{
    if n == 0 {
        return lines == output;
    }
    if n < 11 || 14 < n {
        return false;
    }
    let line = [b'!', b' ', b'1', b'0' + (n - 10), b'\n'];
    lines == &line[..]
}

// Whether a refusal of the whole sheet is: by its number, or with N 0 by the line that the program writes for it.
fn refused_so(n: u8, r: Refusal, output: &[u8]) -> bool
    ensures { result ≡ said_refusal n output.now r }
{
    if n == 0 {
        let mut line = [0u8; 5];
        let k = write_refusal(r, Place(0), &mut line).0;
        return &line[..k] == output;
    }
    number_of(r) == n
}
