// A specifier's text, taken by a sink: measured, counted or written.
#![tactic(auto)]

ghost use Rattle.std.specs.Prelude.{◌≡◌, length};
ghost use Rattle.fields.specs.Wordings.{bytes_of, WordingWithin};

use decimal::write_number;
use fields::Wording;
use file_name::write_file_name;
use fixed::text_of;
use measure::sink::Sink;

mod fixed;

// The text that w stands for in the record's bytes d. Where it is counted, no byte of a part is looked at.
#[tactic(auto, unfolding(fields::specs::Wordings::bytes_of))]
pub fn write_wording<S: Sink>(d: &[u8], w: Wording, sink: S, out: &mut [u8]) -> S
    requires wording_within { WordingWithin (length d.now) w }
    requires fits { S.fits sink out.old (bytes_of w d.now) }
    ensures value { result ≡ S.after sink (bytes_of w d.now) }
    ensures buffer { out.new ≡ S.left sink out.old (bytes_of w d.now) }
{
    match w {
        Wording::Part(i, j) => sink.take(&d[i..j], out),
        Wording::Fixed(x) => sink.take(text_of(x), out),
        Wording::Number(n) => write_number(n, sink, out),
        Wording::Components(i, j, n) => write_file_name(d, i, j, n, sink, out),
    }
}
