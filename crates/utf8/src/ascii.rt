// The greatest byte.
ghost use Rattle.std.specs.Prelude.{◌≡◌};
ghost use Rattle.utf8.specs.Windows.{top_of};

// The greatest of some bytes, 0 where there are none and no `Option` (d): who asks whether all are below a bound needs no case of its own for none. The
// compiler compares many bytes in one step.
pub(crate) fn greatest(s: &[u8]) -> u8
    ensures { result ≡ top_of s.now }
{
    let mut top = 0;
    for &b in s {
        top = top.max(b);
    }
    top
}
