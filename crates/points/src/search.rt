// The search in a table of ranges of code points, which is lent: where each range begins, and the code point after it, by turns, as document 01 names it (a).
ghost use Rattle.std.specs.Prelude.{◌≡◌};
ghost use Rattle.points.specs.Ranges.{among_ends};
ghost use Rattle.points.specs.Searching.{Rising};

// Whether x lies in one of the ranges: an odd number of ends is x or less exactly where it does.
pub fn is_among(table: &[u32], x: u32) -> bool
    requires { Rising table.now }
    ensures { result ≡ among_ends table.now x }
{
    table.partition_point(|end| *end <= x) % 2 == 1
}
