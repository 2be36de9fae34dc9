// The line that stands for a refusal.
ghost use Rattle.std.specs.Prelude.{◌≡◌};
ghost use Rattle.outcomes.specs.Program.{refusal_line};

use decimal::write_number;
use measure::sink::Sink;
use refusals::{Refusal, number_of};

// The refusal's line, taken by a sink: counted or written.
pub fn write_refusal<S: Sink>(r: Refusal, sink: S, out: &mut [u8]) -> S
    requires fits { S.fits sink out.old (refusal_line r) }
    ensures value { result ≡ S.after sink (refusal_line r) }
    ensures buffer { out.new ≡ S.left sink out.old (refusal_line r) }
{
    let marked = sink.take(b"! ", out);
    let numbered = write_number(usize::from(number_of(r)), marked, out);
    numbered.take(b"\n", out)
}
