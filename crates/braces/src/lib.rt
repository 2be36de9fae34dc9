// The search for a closing brace.
#![tactic(auto)]

ghost use Rattle.std.specs.Prelude.{◌≡◌, false, ◌-◌, ◌≤◌, length};
ghost use Rattle.braces.specs.Braces.{closing};
ghost use Rattle.braces.specs.Within.{ClosingWithin};

use refusals::Refusal;

// Where the brace that is open at `from` closes; nowhere, or a refusal where a backslash ends what is looked at. It
// takes the template and two places (d): where it closes is a place of the template.
#[tactic(auto, unfolding(crate::specs::Within::ClosingWithin))]
pub fn take_until_unbalanced(t: &[u8], from: usize, to: usize) -> Result<Option<usize>, Refusal>
    requires { (from ≤ to) × (to ≤ length t.now) }
    ensures value { result ≡ closing t.now (to - from) from 0 false }
    ensures within { ClosingWithin from to result }
{
    let mut open: usize = 0;
    let mut escaped = false;
    for i in from..to {
        match t[i] {
            _ if escaped => escaped = false,
            b'\\' => escaped = true,
            b'{' => open += 1,
            b'}' if open == 0 => return Ok(Some(i)),
            b'}' => open -= 1,
            _ => {}
        }
    }
    if escaped {
        return Err(Refusal::HalfEscape);
    }
    Ok(None)
}
