// The members of a group from the first to the last, though their links in the pool lead back: a row of links that lead forward is made once
// for a line. As in the pool a link is the place of a segment and one more, and 0 is before the first (a: fixed memory, a byte for each link).
#![tactic(auto)]

ghost use Rattle.std.specs.Prelude.{◌≡◌, ◌+◌, ◌<◌, ◌≤◌, length};
ghost use Rattle.members.specs.Links.{linked_by, links_forward, member_after};

use pool::back_at;
use segments::Cell;

// The links of a segment: to the member after it, and to the first of the members back from it. A byte holds each, so that a row of them is short.
#[derive(Clone, Copy)]
pub struct Link {
    pub next: u8,
    pub first: u8,
}

// The links forward of the segments below n, in one pass along their links back.
pub fn forward(cells: &[Cell], n: usize, links: &mut [Link])
    requires { (64 ≤ length cells.now) × ((n ≤ 64) × (n ≤ length links.old)) }
    ensures { links.new ≡ links_forward cells.now links.old n }
{
    for i in 0..n {
        link_forward(links, i, back_at(cells, i));
    }
}

// The segment at i, where b is its link back: it is the first of its members, or it comes after the one that b leads to.
fn link_forward(links: &mut [Link], i: usize, b: usize)
    requires { (b ≤ i) × ((i < 64) × (i < length links.old)) }
    ensures { links.new ≡ linked_by links.old i b }
{
    let link = (i + 1) as u8;
    if b == 0 {
        links[i].first = link;
        return;
    }
    links[i].first = links[b - 1].first;
    links[b - 1].next = link;
}

// The link to the member after the one that j leads to (0: before the first), among those back from the link l.
pub fn member_after(links: &[Link], l: usize, j: usize) -> usize
    requires { (j < l) × (l ≤ length links.now) }
    ensures { result ≡ member_after links.now l j }
{
    if j == 0 {
        return usize::from(links[l - 1].first);
    }
    usize::from(links[j - 1].next)
}
