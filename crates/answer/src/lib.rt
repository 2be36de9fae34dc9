// What a line call answers: the line, or a refusal.
#![tactic(auto)]

ghost use Rattle.std.specs.Prelude.{◌≡◌, ◌<◌, ◌^◌, length};
ghost use Rattle.buffer.specs.Buffer.{Writes};
ghost use Rattle.record.specs.Placed.{laid_by};
ghost use Rattle.colour.specs.Shown.{text_of};
ghost use Rattle.comparisons.specs.Places.{SpansWithin};
ghost use Rattle.fields.specs.Lines.{print_shown};
ghost use Rattle.layouts.specs.Runs.{laid_text};
ghost use Rattle.leaves.specs.Places.{record_by, Lent};
ghost use Rattle.packing.specs.Packing.{Packable};
ghost use Rattle.answer.specs.Answers.{answer_of, buffer_after, line_entry};
ghost use Rattle.answer.specs.Maker.{IsRead, maker_of};
ghost use Rattle.answer.specs.Rooms.{Accepted, line_by, outcome_by};

use checks::check_record;
use colour::Settings;
use comparisons::Spans;
use fields::comparison_of;
use layouts::{layout_len, put_layout};
use leaves::Shown;
use line::write_line;
use packing::{Answer, answer_in};
use record::layout::{places_in, right_size};
use record::levels::level_of;
use record::{Form, Level, Places};
use refusals::Refusal;
use segments::{Cell, EMPTY};
use settings::{edition_of, form_of, is_known, settings_of};
use std::marker::Model;
use template::parse;

// What the lines of records are made by: the form of the records, how a line is shown, a template, and the pool that it was read into as so many segments. It
// is lent as one, since it stays the same for all records of a sheet.
#[derive(Drop)]
pub struct Reading<'a> {
    form: Form,
    settings: Settings,
    template: &'a [u8],
    cells: &'a [Cell],
    count: usize,
}

impl<'a> Model for Reading<'a> {
    ghost use Rattle.answer.specs.Maker.{Maker, IsRead};

    ghost Value = { Maker };

    ghost view = { λ r. record { form = r.form; settings = r.settings; template = r.template.now; cells = r.cells.now; count = r.count } };

    ghost invariant = { λ r. IsRead r.template.now r.cells.now r.count };
}

// That a length is told where there is no room is no `Result` (d), here and below: who measures lends none, and asks for the length all the same.

// Writes a text to the front of the buffer where there is room for it, and returns its length.
fn put_text(text: &[u8], out: &mut [u8]) -> usize
    ensures { Writes out.old out.new text.now result }
{
    if out.len() < text.len() {
        return text.len();
    }
    buffer::put(out, 0, text)
}

// The same with the layout of a comparison.
fn put_comparison(d: &[u8], from: usize, c: Spans, s: Settings, out: &mut [u8]) -> usize
    requires { SpansWithin from (length d.now) (Some c) × (length (laid_text s d.now from c) < 2 ^ 57) }
    ensures { Writes out.old out.new (laid_text s d.now from c) result }
{
    let len = layout_len(d, from, c, s);
    if out.len() < len {
        return len;
    }
    put_layout(d, from, c, s, out, 0)
}

// The same with a message alone, laid out where it is a comparison.
fn put_message(d: &[u8], shown: &Shown, s: Settings, out: &mut [u8]) -> usize
    requires { Lent d.now shown.now }
    ensures { Writes out.old out.new (text_of s (print_shown (record_by shown.now d.now))) result }
{
    let p = shown.places;
    match shown.spans {
        Some(c) => put_comparison(d, p.message_from, c, s, out),
        None => put_text(&d[p.message_from..p.message_to], out),
    }
}

impl<'a> Reading<'a> {
    // As the settings byte says, by a template that was read into the pool.
    pub fn new(settings: u8, template: &'a [u8], cells: &'a [Cell], count: usize) -> Self
        requires { IsRead template.now cells.now count }
        ensures { result ≡ maker_of settings template.now cells.now count }
    {
        Reading {
            form: form_of(settings),
            settings: settings_of(settings),
            template,
            cells,
            count,
        }
    }
}

impl Reading<'_> {
    // The same with the line of any record that passed its checks, as none with a refused level does: a print without level is its message alone.
    // Whether the message is a comparison is looked for once, however often it is shown.
    fn put_line(&self, d: &[u8], places: Places, out: &mut [u8]) -> usize
        requires { Accepted d.now places }
        ensures { Writes out.old out.new (line_by self.now (laid_by places d.now)) result }
    {
        let shown = Shown {
            places,
            spans: comparison_of(d, places),
        };
        match level_of(places.level) {
            Level::Named(..) => write_line(
                self.cells,
                self.count,
                self.template,
                d,
                &shown,
                self.settings,
                out,
            ),
            Level::Print | Level::Refused => put_message(d, &shown, self.settings, out),
        }
    }

    // The answer for the record d where there is so much room. The line is written where the buffer has room for it: measuring lends none.
    fn answer_record(&self, d: &[u8], room: usize, out: &mut [u8]) -> Answer
        ensures answer { result ≡ answer_of (outcome_by self.now d.now room) }
        ensures buffer { out.new ≡ buffer_after out.old (outcome_by self.now d.now (length out.old)) }
        ensures packable { Packable result }
    {
        if !right_size(self.form, d) {
            return Err(Refusal::NotASheet);
        }
        let places = places_in(self.form, d);
        check_record(self.form, d, places)?;
        answer_in(room, self.put_line(d, places, out))
    }

    // The line of the record d at the front of the lent buffer, or a refusal, and the buffer as it was.
    pub fn record_line(&self, d: &[u8], out: &mut [u8]) -> Answer
        ensures answer { result ≡ answer_of (outcome_by self.now d.now (length out.old)) }
        ensures buffer { out.new ≡ buffer_after out.old (outcome_by self.now d.now (length out.old)) }
        ensures packable { Packable result }
    {
        let room = out.len();
        self.answer_record(d, room, out)
    }

    // The same answer where there is so much room, and nothing is written.
    pub fn measure_record(&self, d: &[u8], room: usize) -> Answer
        ensures { result ≡ answer_of (outcome_by self.now d.now room) }
    {
        self.answer_record(d, room, &mut [])
    }
}

// The line of the record d by the template t, at the front of the lent buffer; or a refusal, and the buffer as it was.
pub fn line(t: &[u8], settings: u8, d: &[u8], out: &mut [u8]) -> Answer
    ensures answer { result ≡ answer_of (line_entry t.now settings d.now out.old) }
    ensures buffer { out.new ≡ buffer_after out.old (line_entry t.now settings d.now out.old) }
    ensures packable { Packable result }
{
    if !is_known(settings) || !right_size(form_of(settings), d) {
        return Err(Refusal::NotASheet);
    }
    let mut cells = [EMPTY; 64];
    let count = parse(edition_of(settings), t, &mut cells)?;
    Reading::new(settings, t, &cells, count).record_line(d, out)
}
