// What contents and groups have given so far, and the segments that words and pieces add up to (in the crate: `build_log_segment`).
#![tactic(auto)]

ghost use Rattle.std.specs.Prelude.{◌≡◌};
ghost use Rattle.segments.specs.Sizes.{Narrow};
ghost use Rattle.parts.specs.Parts.{segment_of};
ghost use Rattle.building.specs.Reading.{make_or, closed};
ghost use Rattle.building.specs.Told.{tell, tell_items, tell_pieces, built_of, Room, ItemsReady, PiecesReady, MakeKeeps, BuildKeeps, GroupKeeps};

use parts::Parts;
use refusals::Refusal;
use segments::Cell;
use words::Read;

// The group or inner segment that a content takes: where there is one, it is the segment made last. No `Option` (d): of several none is taken, and it is told
// apart from having none.
#[derive(Clone, Copy)]
pub enum Inner {
    Nothing,
    One,
    Several,
}

// What the items of a content have given so far.
#[derive(Clone, Copy)]
pub struct Items {
    pub made: usize,
    pub parts: Parts,
    pub inner: Inner,
}

// What the pieces of a group have given so far: the link to its last member, and whether a member is a specifier.
// A link is a number, 0 for none, as it stands in a cell of the pool (d).
#[derive(Clone, Copy)]
pub struct Pieces {
    pub last: usize,
    pub made: usize,
    pub parts: Parts,
    pub direct: bool,
}

// The segment of a list of words, made, as the last of so many; `instead` where the words make none. What it is given stays apart, as in reader (d).
#[tactic(auto, unfolding(words::specs::Within::told, words::specs::Within::Fitting, crate::specs::Reading::make_or, crate::specs::Reading::make, parts::specs::Parts::segment_of, parts::specs::Parts::specified))]
#[inline(always)]
pub fn make_specified(
    p: Parts,
    link: usize,
    j: usize,
    cells: &mut [Cell],
    n: usize,
    instead: Read<usize>,
) -> Read<usize>
    requires { Room cells.old n link × Narrow p.format.width }
    ensures cells_after { tell result cells.new ≡ make_or (tell instead cells.new) n j (segment_of p) }
    ensures keeps { MakeKeeps j n link cells.old cells.new instead result }
{
    let Some(m) = p.metadata else {
        return instead;
    };
    if p.twice {
        return instead;
    }
    if 64 <= n {
        return Err(Refusal::TooManySegments);
    }
    pool::put_specifier(cells, n, link, m, p.format);
    Ok(Some((j, n + 1)))
}

// A content's segment: the one that it took, or the one that its words make.
#[tactic(auto, unfolding(words::specs::Within::told, words::specs::Within::Fitting, crate::specs::Reading::built, crate::specs::Told::built_of, crate::specs::Told::tell_items, crate::specs::Told::tell_inner, crate::specs::Told::last_made))]
pub fn build_log_segment(c: Items, link: usize, j: usize, cells: &mut [Cell]) -> Read<usize>
    requires { Room cells.old c.made link × ItemsReady c }
    ensures cells_after { tell result cells.new ≡ built_of (tell_items c cells.old) j }
    ensures keeps { BuildKeeps j link cells.old cells.new c result }
{
    match c.inner {
        Inner::Nothing => { make_specified(c.parts, link, j, cells, c.made, Err(Refusal::Failure)) }
        Inner::One => {
            if c.parts.twice || c.parts.metadata.is_some() {
                return Err(Refusal::Failure);
            }
            Ok(Some((j, c.made)))
        }
        Inner::Several => Err(Refusal::Failure),
    }
}

// A group, made of its pieces.
#[tactic(auto, unfolding(words::specs::Within::told, words::specs::Within::Fitting, crate::specs::Reading::closed, crate::specs::Reading::make, crate::specs::Told::tell_pieces, crate::specs::Told::last_made))]
pub fn build_group(g: Pieces, link: usize, j: usize, cells: &mut [Cell]) -> Read<usize>
    requires { Room cells.old g.made link × PiecesReady cells.old g }
    ensures cells_after { tell result cells.new ≡ closed (tell_pieces g cells.old) j }
    ensures keeps { GroupKeeps j link cells.old cells.new g result }
{
    if g.parts.twice || !g.direct {
        return Err(Refusal::Failure);
    }
    if 64 <= g.made {
        return Err(Refusal::TooManySegments);
    }
    pool::put_group(cells, g.made, link, g.last, g.parts.format);
    Ok(Some((j, g.made + 1)))
}
