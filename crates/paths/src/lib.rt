// The components of a path, one after the other: what `{f}` is measured and written by.
#![tactic(auto)]

ghost use Rattle.std.specs.Prelude.{◌≡◌, ◌<◌, ◌||◌, ◌∷◌, length, slice_index, eqb};
ghost use Rattle.std.specs.Iterator.{YieldsFirstRef, item_count};
ghost use Rattle.buffer.specs.Bytes.{byte};
ghost use Rattle.paths.specs.Paths.{pieces, is_dropped, kept, starts_with_dot, components};

use std::marker::Model;

// The components that are left of a path: the leading one, until it is yielded, and those of the rest. A contract sees the list of them.
#[derive(Drop)]
pub struct Components<'a> {
    leading: Option<&'a [u8]>,
    rest: &'a [u8],
}

impl<'a> Model for Components<'a> {
    ghost use Rattle.std.specs.Prelude.{ℕ, List, ◌++◌, option_map, option_to_list};
    ghost use Rattle.paths.specs.Paths.{pieces, kept};

    ghost Value = { List (List ℕ) };

    ghost view = { λ c. option_to_list (option_map (λ x. x.now) c.leading) ++ kept (pieces c.rest.now) };
}

impl<'a> Iterator for Components<'a> {
    type Item = &'a [u8];

    ghost next_gives = { YieldsFirstRef (λ left. left) };

    ghost remaining = { item_count (λ left. left) };

    // By hand: std's `split` and `filter` would say it, in a type that no struct can name (d).
    fn next(&mut self) -> Option<&'a [u8]> {
        if let Some(component) = self.leading.take() {
            return Some(component);
        }
        while !self.rest.is_empty() {
            let (piece, rest) = first_piece(self.rest);
            self.rest = rest;
            if !is_dropped(piece) {
                return Some(piece);
            }
        }
        None
    }
}

// All components of a path.
pub fn components_of(path: &[u8]) -> Components<'_>
    ensures { result ≡ components path.now }
{
    if !begins_alone(path) {
        return Components {
            leading: None,
            rest: path,
        };
    }
    let (leading, rest) = path.split_at(1);
    Components {
        leading: Some(leading),
        rest,
    }
}

// Whether the first byte is a component by itself: "A leading `/` is a component", and so is a `.` at the very start.
fn begins_alone(path: &[u8]) -> bool
    ensures { result ≡ (eqb (slice_index path.now 0) (byte "/") || starts_with_dot path.now) }
{
    matches!(path, [b'/', ..]) || starts_with_dot(path)
}

// Whether the path is `.` or begins with `./`.
#[tactic(auto, using(crate::proofs::Pieces::dot_by))]
fn starts_with_dot(path: &[u8]) -> bool
    ensures { result ≡ starts_with_dot path.now }
{
    matches!(path, [b'.'] | [b'.', b'/', ..])
}

// "components that are `.` are dropped", and empty ones.
#[tactic(auto, using(crate::proofs::Pieces::dropped_by))]
fn is_dropped(piece: &[u8]) -> bool
    ensures { result ≡ is_dropped piece.now }
{
    matches!(piece, [] | [b'.'])
}

// The bytes before the first slash, and those after it.
fn first_piece(t: &[u8]) -> (&[u8], &[u8])
    requires { 0 < length t.now }
    ensures kept { kept (pieces t.now) ≡ kept (result.0.now ∷ pieces result.1.now) }
    ensures shorter { length result.1.now < length t.now }
{
    match t.iter().position(|b| *b == b'/') {
        Some(n) => (&t[..n], &t[n + 1..]),
        None => (t, &[]),
    }
}
