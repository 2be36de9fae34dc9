// A place of a sheet's template, shown to a person: what is wrong there, the line of the template that holds the place, and a caret below it.
use super::say;
use caret::{put_caret, put_line};

// Says that the template t of the sheet drops bytes or loses a parameter, first at its place p, and shows the place.
pub(crate) fn point_at(err: &impl Print, t: &[u8], p: usize) {
    say_place(err, p);
    show_place(err, t, p);
}

// What is wrong, and where. Each line is one write: the words of another program could come between pieces.
fn say_place(err: &impl Print, p: usize) {
    let _ = println!(err;
        "the sheet is refused, 17: its template drops bytes or loses a parameter, first at byte {p}:"
    );
}

// The line of the template t that holds the place p, and the caret. Nothing is left out: what is refused with 17 has 1,024 bytes at most, the place among them.
fn show_place(err: &impl Print, t: &[u8], p: usize) {
    if 1024 < t.len() || t.len() <= p {
        return;
    }
    let mut line = [0u8; 1025];
    let n = put_line(t, p, &mut line);
    say(err, &line[..n]);
    let k = put_caret(t, p, &mut line);
    say(err, &line[..k]);
}
