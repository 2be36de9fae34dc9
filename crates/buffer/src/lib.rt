// Writing into a lent buffer.
#![tactic(auto)]

ghost use Rattle.std.specs.Prelude.{◌≡◌, ◌+◌, ◌≤◌, length, replicate};
ghost use Rattle.buffer.specs.Buffer.{put_at, Puts};

// Writes `src` at the place `at`, and returns the place after it. Not by `copy_from_slice`, nor by a `for`: they become calls of
// `memmove`, and the archive's header promises C that `memcpy` and `memset` are all that it needs (a).
pub fn put(dst: &mut [u8], at: usize, src: &[u8]) -> usize
    requires { at + length src.now ≤ length dst.old }
    ensures { Puts dst.old dst.new at src.now result }
{
    let mut i = 0;
    while i < src.len() {
        dst[at + i] = src[i];
        i += 1;
    }
    at + i
}

// Writes the byte `b` n times at the place `at`, and returns the place after them.
pub fn fill(dst: &mut [u8], at: usize, n: usize, b: u8) -> usize
    requires { at + n ≤ length dst.old }
    ensures { (result ≡ at + n) × (dst.new ≡ put_at dst.old at (replicate n b)) }
{
    let end = at + n;
    dst[at..end].fill(b);
    end
}
