// Decimal numbers of a template.
ghost use Rattle.std.specs.Bool.{then_some};
ghost use Rattle.std.specs.Prelude.{◌≡◌, leb};
ghost use Rattle.runs.specs.Runs.{decimal};

// The number that the digits say, where it is `most` at most. However many digits say a number, reading stops at the first that makes it more.
pub fn number_up_to(most: u16, digits: &[u8]) -> Option<u16>
    ensures { result ≡ then_some (leb (decimal 0 digits.now) most) (decimal 0 digits.now) }
{
    let mut n = 0;
    for b in digits {
        n = n * 10 + u32::from(b.saturating_sub(b'0'));
        if u32::from(most) < n {
            return None;
        }
    }
    Some(n as u16)
}
