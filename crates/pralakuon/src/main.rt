// A session sheet on standard input, its lines on standard output; what went wrong with the whole sheet, or with the output, on the error output. The
// status is always 0, so that a word there is what a caller can go by.
#![tactic(auto)]

ghost use Rattle.std.specs.Prelude.{◌≤◌, length};

use answer::Reading;
use measure::sink::Place;
use outcomes::{put_outcome, refusing};
use pointing::point_at;
use refusals::{Refusal, number_of};
use segments::EMPTY;
use session::{Sheet, sheet_in};
use std::io::Read;

mod pointing;

fn main(rt: HostRuntime) {
    // one byte more than a sheet may have, so that a longer input is known for one
    let mut input = [0u8; 65537];
    let n = read_full(&mut rt.stdin(), &mut input);
    write_output(&rt.stdout(), &rt.stderr(), &input[..n]);
}

// Reads until `buf` is full, the input ends or a read fails, and returns how many bytes it put at the front of `buf`. The loop is its own (d): std's
// `read_exact` tells no length where the input is short, and `read_to_end` needs a heap.
fn read_full(input: &mut impl Read, buf: &mut [u8]) -> usize
    ensures { result ≤ length buf.new }
{
    let mut done = 0;
    while done < buf.len() {
        match input.read(&mut buf[done..]) {
            Ok(0) => break,
            Ok(n) => done += n,
            Err(_) => break,
        }
    }
    done
}

fn write_output(out: &impl Print, err: &impl Print, d: &[u8]) {
    let sheet = match sheet_in(d) {
        Ok(sheet) => sheet,
        Err(r) => {
            write_refusal(out, err, r);
            return;
        }
    };
    let mut cells = [EMPTY; 64];
    match sheet.open(&mut cells) {
        Ok(n) => write_records(out, err, &sheet, &sheet.reading(&cells, n)),
        Err(r) => {
            write_refusal(out, err, r);
            if let Refusal::Dropped(p) = r {
                let (from, to) = sheet.template_at();
                point_at(err, &d[from..to], p);
            }
        }
    }
}

fn write_refusal(out: &impl Print, err: &impl Print, r: Refusal) {
    let mut line = [0u8; 5];
    let n = refusing::write_refusal(r, Place(0), &mut line).0;
    written(out, err, &line[..n]);
    explain(err, r);
}

fn write_records(out: &impl Print, err: &impl Print, sheet: &Sheet<'_>, reading: &Reading<'_>) {
    for body in sheet.records() {
        // nothing is left to do once the output takes no more
        if !write_record(out, err, reading, body) {
            break;
        }
    }
}

fn write_record(out: &impl Print, err: &impl Print, reading: &Reading<'_>, body: &[u8]) -> bool {
    // the line buffer's 65,536 bytes and a newline
    let mut line = [0u8; 65537];
    let k = put_outcome(reading, body, &mut line, 0);
    written(out, err, &line[..k])
}

// Whether the output took the bytes.
fn written(out: &impl Print, err: &impl Print, bytes: &[u8]) -> bool {
    if out.write_all(bytes).is_ok() {
        return true;
    }
    say(
        err,
        b"the output takes no more: not all lines were written\n",
    );
    false
}

// Why the whole sheet is refused. Of one whose template drops bytes the place says it (`point_at`); the others are refusals of a record, and no sheet has them.
fn explain(err: &impl Print, r: Refusal) {
    let why = match r {
        Refusal::TemplateTooLong => "its template has more than 1,024 bytes",
        Refusal::TemplateNotUtf8 => "its template is not UTF-8",
        Refusal::Failure => "its template cannot be read",
        Refusal::NoMessage => "its template names {s} nowhere",
        Refusal::TooManySegments => "its template has more than 64 parts",
        Refusal::TooDeep => "braces of its template stand more than eight deep",
        Refusal::TooWide => "its template asks for a width above 512",
        Refusal::TooManyF => "a specifier of its template has more than 255 f",
        Refusal::HalfEscape => "a backslash ends its template inside a brace",
        Refusal::NotASheet => {
            "it is not laid out as one, has an unknown settings bit, or has more than 65,536 bytes"
        }
        Refusal::Dropped(_)
        | Refusal::FieldTooLong
        | Refusal::FieldNotUtf8
        | Refusal::LineTooLong(_)
        | Refusal::NotARecord => return,
    };
    let _ = println!(err; "the sheet is refused, {}: {why}", number_of(r));
}

// A word that the error output doesn't take is lost: there is nowhere else to say it.
fn say(err: &impl Print, words: &[u8]) {
    let _ = err.write_all(words);
}
