// The texts of a layout.
ghost use Rattle.std.specs.Prelude.{◌≡◌, length};
ghost use Rattle.layouts.specs.Texts.{text_bytes, TextWithin};

use comparisons::head::write_head;
use measure::sink::Sink;

// Where one stands: the head of the message, a part of the message, or a part of what every layout has. The last is told by its places too. It is no
// slice (c): contracts compare runs, and a slice is compared by its address as well; and no enum of its own (a): a `match` that answers slices becomes a table
// of addresses, which would be data in the archive.
#[derive(Clone, Copy)]
pub enum Text {
    Head(usize, usize),
    Part(usize, usize),
    Fixed(usize, usize),
}

// What every layout has, one after the other.
const FIXED: [u8; 26] = *b"\ndiff < left / right >\n<\n>";

// The text x of a message in d.
#[tactic(auto, unfolding(crate::specs::Texts::text_bytes))]
pub(crate) fn write_text<S: Sink>(d: &[u8], x: Text, sink: S, out: &mut [u8]) -> S
    requires text_within { TextWithin (length d.now) x }
    requires fits { S.fits sink out.old (text_bytes x d.now) }
    ensures value { result ≡ S.after sink (text_bytes x d.now) }
    ensures buffer { out.new ≡ S.left sink out.old (text_bytes x d.now) }
{
    match x {
        Text::Head(i, j) => write_head(d, i, j, sink, out),
        Text::Part(i, j) => sink.take(&d[i..j], out),
        Text::Fixed(i, j) => sink.take(&FIXED[i..j], out),
    }
}
