// A character of UTF-8 by its bytes.
ghost use Rattle.std.specs.Prelude.{◌≡◌, ◌+◌, ◌*◌, ◌≤◌, ◌<◌, ◌^◌, get_or};
ghost use Rattle.points.specs.Decoding.{size_of, with_six, point};

// How many bytes the character has whose first byte is b.
pub fn size_of(b: u8) -> usize
    ensures { (result ≡ size_of b) × (1 ≤ result) }
{
    match b {
        0..=0xBF => 1,
        0xC0..=0xDF => 2,
        0xE0..=0xEF => 3,
        _ => 4,
    }
}

// The byte at i, or 0 where the text has ended. No `Option` (d): `point` takes four bytes, whatever the character has, and reads no more than it has.
pub fn byte_at(t: &[u8], i: usize) -> u8
    ensures { result ≡ get_or t.now i 0 }
{
    t.get(i).copied().unwrap_or(0)
}

// The bits so far, and behind them the six of one byte more.
pub fn with_six(x: u32, b: u8) -> u32
    requires { x < 2 ^ 20 }
    ensures { (result ≡ with_six x b) × (result < x * 64 + 64) }
{
    x * 0x40 + u32::from(b % 0x40)
}

// The code point of the character that begins with a.
pub fn point(a: u8, b: u8, c: u8, d: u8) -> u32
    ensures { result ≡ point a b c d }
{
    match a {
        0..=0xBF => u32::from(a),
        0xC0..=0xDF => with_six(u32::from(a % 0x20), b),
        0xE0..=0xEF => with_six(with_six(u32::from(a % 0x10), b), c),
        _ => with_six(with_six(with_six(u32::from(a % 8), b), c), d),
    }
}
