// A number in decimal digits.
#![tactic(auto)]

ghost use Rattle.std.specs.Prelude.{◌≡◌, ◌+◌, ◌<◌, ◌≤◌, ◌^◌, length};
ghost use Rattle.buffer.specs.Bytes.{byte, part};
ghost use Rattle.fields.specs.Texts.{decimal_text};

use measure::sink::Sink;

// The digits of n, taken by a sink: measured, counted or written.
pub fn write_number<S: Sink>(n: usize, sink: S, out: &mut [u8]) -> S
    requires n_bound { n < 2 ^ 32 }
    requires fits { S.fits sink out.old (decimal_text n) }
    ensures value { result ≡ S.after sink (decimal_text n) }
    ensures buffer { out.new ≡ S.left sink out.old (decimal_text n) }
{
    let mut into = [0; 10];
    let from = decimal(n, &mut into);
    sink.take(&into[from..], out)
}

fn digit(n: usize) -> u8
    requires { n < 10 }
    ensures { result ≡ byte "0" + n }
{
    b'0' + n as u8
}

// Writes the digits of n at the end of the ten places of `into`, from the last one on, and returns the place of the first. It is no `for` over the
// places (d), which would need an answer where they run out: n has no more digits than there are places.
fn decimal(n: usize, into: &mut [u8]) -> usize
    requires { (n < 2 ^ 32) × (length into.old ≡ 10) }
    ensures { (result ≤ 10) × (part result 10 into.new ≡ decimal_text n) }
{
    let mut left = n;
    let mut i = 9;
    while 10 <= left {
        into[i] = digit(left % 10);
        left /= 10;
        i -= 1;
    }
    into[i] = digit(left);
    i
}
