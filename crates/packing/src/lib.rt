// What an entry answers, and one number for it.
#![tactic(auto)]

ghost use Rattle.std.specs.Prelude.{◌≡◌};
ghost use Rattle.packing.specs.Packing.{answer_in, Packable, packed_answer};

use refusals::{Refusal, number_of, value_with};

// A line of so many bytes at the front of the lent buffer, or a refusal.
pub type Answer = Result<usize, Refusal>;

// The answer for a line of n bytes.
pub fn answer_in(room: usize, n: usize) -> Answer
    ensures { result ≡ answer_in room n }
{
    if n <= room {
        return Ok(n);
    }
    Err(Refusal::LineTooLong(n))
}

// The number of a refusal in the low eight bits, and a length in the others.
pub fn pack(a: Answer) -> u64
    requires { Packable a }
    ensures { result ≡ packed_answer a }
{
    match a {
        Ok(n) => 256 * n as u64,
        // what a refusal tells besides stands there too: 0 where it tells nothing, as the C interface has it (a)
        Err(r) => u64::from(number_of(r)) + 256 * value_with(r) as u64,
    }
}
