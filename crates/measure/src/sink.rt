// Where a text goes: on top of a measure, into a count of bytes, or into a lent buffer. So what tells a text part by part is written once for all three.
ghost use Rattle.std.specs.Prelude.{◌≡◌, ℕ, List};
ghost use Rattle.buffer.specs.Buffer.{put_at};
ghost use Rattle.measure.specs.Measures.{grown};
ghost use Rattle.measure.specs.Sinks.{SinkLaws, count_after, place_after};
ghost use Rattle.measure.specs.Sinking.{Measured, measured_laws, Counted, counted_laws, HasRoom, placed_laws};

use super::Measure;
use super::growing::add;
use buffer::put;

pub trait Sink: Copy {
    // Whether a text fits, where the buffer is so.
    ghost fits: { Self → List ℕ → List ℕ → Type 0 };

    // What the sink is after a text.
    ghost after: { Self → List ℕ → Self };

    // What the buffer is after a text.
    ghost left: { Self → List ℕ → List ℕ → List ℕ };

    // What each `impl` must prove.
    ghost laws: { SinkLaws fits after left };

    fn take(self, text: &[u8], out: &mut [u8]) -> Self
        requires { fits self out.old text.now }
        ensures value { result ≡ after self text.now }
        ensures buffer { out.new ≡ left self out.old text.now };
}

// On top of a measure. The buffer stays as it is.
impl Sink for Measure {
    ghost fits = { Measured };

    ghost after = { grown };

    ghost left = { λ a d s. d };

    ghost laws = { measured_laws };

    fn take(self, text: &[u8], _out: &mut [u8]) -> Measure {
        add(self, text)
    }
}

// So many bytes: no byte of a text is looked at. The buffer stays as it is.
#[derive(Clone, Copy)]
pub struct Count(pub usize);

impl Sink for Count {
    ghost fits = { Counted };

    ghost after = { count_after };

    ghost left = { λ n d s. d };

    ghost laws = { counted_laws };

    fn take(self, text: &[u8], _out: &mut [u8]) -> Count {
        Count(self.0 + text.len())
    }
}

// A place of the buffer: texts are written from it on.
#[derive(Clone, Copy)]
pub struct Place(pub usize);

impl Sink for Place {
    ghost fits = { HasRoom };

    ghost after = { place_after };

    ghost left = { λ at d s. put_at d at.0 s };

    ghost laws = { placed_laws };

    fn take(self, text: &[u8], out: &mut [u8]) -> Place {
        Place(put(out, self.0, text))
    }
}
