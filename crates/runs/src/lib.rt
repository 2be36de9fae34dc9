// Bytes of a template at places, and runs of them. In place of a letter beyond ASCII stand marks, so that a letter is told by one byte.
// Text and places stay parameters of their own (d): each reader begins at another place, and hands back only where it ends.
#![tactic(auto)]

ghost use Rattle.std.specs.Prelude.{◌≡◌, ◌≤◌, length};
ghost use Rattle.runs.specs.Runs.{letter, stands, letters_end, digits_end};

pub mod numbers;

// Stands for each byte of a letter beyond ASCII.
pub const MARK: u8 = 0xFF;

// Whether the byte b stands at i, which is before e.
pub fn stands_at(b: u8, t: &[u8], i: usize, e: usize) -> bool
    requires { e ≤ length t.now }
    ensures { result ≡ stands b t.now i e }
{
    i < e && t[i] == b
}

fn is_letter(b: u8) -> bool
    ensures { result ≡ letter b }
{
    b.is_ascii_alphabetic() || b == MARK
}

// Where the letters from `from` on end.
pub fn letters_end(t: &[u8], from: usize, to: usize) -> usize
    requires { (from ≤ to) × (to ≤ length t.now) }
    ensures value { result ≡ letters_end t.now from to }
    ensures within { (from ≤ result) × (result ≤ to) }
{
    from + t[from..to].iter().take_while(|b| is_letter(**b)).count()
}

// Where the digits from `from` on end.
pub fn digits_end(t: &[u8], from: usize, to: usize) -> usize
    requires { (from ≤ to) × (to ≤ length t.now) }
    ensures value { result ≡ digits_end t.now from to }
    ensures within { (from ≤ result) × (result ≤ to) }
{
    from + t[from..to]
        .iter()
        .take_while(|b| b.is_ascii_digit())
        .count()
}
