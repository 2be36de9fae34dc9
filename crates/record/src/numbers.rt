// "all numbers are little-endian": numbers of two and four bytes.
ghost use Rattle.std.specs.Prelude.{◌≡◌, ◌+◌, ◌<◌, ◌≤◌, length};
ghost use Rattle.record.specs.Layout.{u16, u32};

// The number in the two bytes from the place i on.
pub fn u16_at(d: &[u8], i: usize) -> usize
    requires { i + 2 ≤ length d.now }
    ensures { (result ≡ u16 d.now i) × (result < 65536) }
{
    usize::from(u16::from_le_bytes([d[i], d[i + 1]]))
}

// The number in the four bytes from the place i on.
pub fn u32_at(d: &[u8], i: usize) -> usize
    requires { i + 4 ≤ length d.now }
    ensures { (result ≡ u32 d.now i) × (result < 4294967296) }
{
    u32::from_le_bytes([d[i], d[i + 1], d[i + 2], d[i + 3]]) as usize
}
