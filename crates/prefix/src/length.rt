// The length of the prefix that switches a look on.
ghost use Rattle.std.specs.Prelude.{◌≡◌, cond, [], ◌∷◌, ◌+◌, ◌≤◌, eqb, length, count_by};
ghost use Rattle.colour.specs.Sequences.{reset};
ghost use Rattle.colour.specs.Looks.{ink_codes, following};
ghost use Rattle.colour.specs.Formatting.{prefix_in};

use super::RESET;
use colour::{Look, Settings};
use words::{Color, Styles};

// The bytes of the prefix. They are counted, and not written and counted (d): most prefixes are asked for their length alone. Each code is counted with one byte more, the `;` or `m` after it; before the codes stand byte 27 and `[`.
pub fn prefix_len(s: Settings, k: Look) -> usize
    ensures { (result ≡ length (prefix_in s.colour k)) × (result ≤ 15) }
{
    if !s.colour {
        return 0;
    }
    let n = 2 * count_styles(k.styles) + ink_len(k.ink);
    if n == 0 { 0 } else { n + 2 }
}

// The bytes of a prefix of p bytes and of the reset at the end, which is there where a prefix is.
pub fn ends_len(p: usize) -> usize
    requires { p ≤ 15 }
    ensures { result ≡ cond (eqb p 0) 0 (p + length reset) }
{
    if p == 0 { 0 } else { p + RESET.len() }
}

// How many styles apply.
fn count_styles(y: Styles) -> usize
    ensures { result ≡ count_by (λ on. on) (y.bold ∷ y.dimmed ∷ y.underline ∷ y.italic ∷ y.strike ∷ []) }
{
    [y.bold, y.dimmed, y.underline, y.italic, y.strike]
        .iter()
        .filter(|on| **on)
        .count()
}

#[tactic(auto, using(crate::proofs::Lengths::length_ink), unfolding(colour::specs::Looks::ink_codes, colour::specs::Looks::following))]
fn ink_len(i: Option<Color>) -> usize
    ensures { (result ≡ length (following (ink_codes i))) × (result ≤ 3) }
{
    match i {
        Some(_) => 3,
        None => 0,
    }
}
