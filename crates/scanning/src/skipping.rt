// The search over a text, in blocks. Where no sequence has begun a block without byte 27 changes nothing, and to see that it is
// one takes a small part of the time of going through it byte by byte.
ghost use Rattle.std.specs.Prelude.{◌≡◌, ◌+◌, ◌<◌, ◌≤◌, ◌^◌, length};
ghost use Rattle.colour.specs.Machine.{scan};
ghost use Rattle.scanning.specs.Resting.{is_resting};
ghost use Rattle.scanning.specs.Room.{Searchable};

use super::step;
use colour::{Scan, State};

// The search after the text s.
pub fn scan_text(t: Scan, s: &[u8]) -> Scan
    requires { Searchable t (length s.now) }
    ensures { result ≡ scan t s.now }
{
    // for a few bytes the blocks cost more than they save
    if s.len() < 12 {
        return scan_bytes(t, s);
    }
    scan_blocks(t, s)
}

fn scan_blocks(t: Scan, s: &[u8]) -> Scan
    requires { Searchable t (length s.now) }
    ensures { result ≡ scan t s.now }
{
    let mut u = t;
    for block in s.chunks(128) {
        u = scan_block(u, block);
    }
    u
}

fn scan_block(t: Scan, s: &[u8]) -> Scan
    requires { Searchable t (length s.now) }
    ensures { result ≡ scan t s.now }
{
    if rests(t) && !s.contains(&27) {
        return t;
    }
    scan_bytes(t, s)
}

// The search after s, byte by byte.
fn scan_bytes(t: Scan, s: &[u8]) -> Scan
    requires { Searchable t (length s.now) }
    ensures { result ≡ scan t s.now }
{
    let mut u = t;
    for &b in s {
        u = step(u, b);
    }
    u
}

// Whether no sequence has begun: else the search goes byte by byte.
pub fn rests(t: Scan) -> bool
    ensures { result ≡ is_resting t.state t.held }
{
    matches!(t.state, State::Outside) && t.held == 0
}
