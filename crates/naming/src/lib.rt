// Whether a template names a specifier, at any depth.
#![tactic(auto)]

ghost use Rattle.std.specs.Prelude.{◌≡◌, ◌<◌, ◌≤◌, length};
ghost use Rattle.naming.specs.Wanted.{is_wanted};
ghost use Rattle.segments.specs.Segments.{named_in, named_among};
ghost use Rattle.segments.specs.Pool.{segment_at, chain_at};

use pool::{back_at, kind_at, last_at};
use segments::{Cell, Kind};
use words::LogMetadata;

// Whether the members back from the link `l` name it. Links lead down, so that the search ends in any pool. It goes from link to link by a `while` (d), as
// `join_of` of rows does.
#[cycle(named)]
pub fn names(cells: &[Cell], wanted: LogMetadata, l: usize) -> bool
    requires { (64 ≤ length cells.now) × (l ≤ 64) }
    ensures { result ≡ named_among (is_wanted wanted) (chain_at cells.now l) }
{
    let mut j = l;
    while 0 < j {
        if named_at(cells, wanted, j - 1) {
            return true;
        }
        j = back_at(cells, j - 1);
    }
    false
}

// Each kind of segment has an answer of its own (d).
#[cycle(named)]
fn named_at(cells: &[Cell], wanted: LogMetadata, i: usize) -> bool
    requires { (64 ≤ length cells.now) × (i < 64) }
    ensures { result ≡ named_in (is_wanted wanted) (segment_at cells.now i) }
{
    match kind_at(cells, i) {
        Kind::Text(..) => false,
        Kind::Group(_) => names(cells, wanted, last_at(cells, i)),
        Kind::Specifier(m) => m == wanted,
    }
}
