// "`{f}` repeated n times: the last n path components joined by `/`".
#![tactic(auto)]

ghost use Rattle.std.specs.Prelude.{◌≡◌, ◌≤◌, length};
ghost use Rattle.paths.specs.Paths.{components, last_of, slashed};
ghost use Rattle.fields.specs.Wordings.{name_text};

use measure::sink::Sink;
use paths::{Components, components_of};

// The last n components of the path from place i up to place e; bytes and places stay apart, since a wording is such places (d). "A present file with no
// component left gives `<file>`".
pub fn write_file_name<S: Sink>(
    d: &[u8],
    i: usize,
    e: usize,
    n: usize,
    sink: S,
    out: &mut [u8],
) -> S
    requires i_le_e { (i ≤ e) × (e ≤ length d.now) }
    requires fits { S.fits sink out.old (name_text i e n d.now) }
    ensures value { result ≡ S.after sink (name_text i e n d.now) }
    ensures buffer { out.new ≡ S.left sink out.old (name_text i e n d.now) }
{
    let mut shown = last_components(&d[i..e], n);
    let Some(first) = shown.next() else {
        return sink.take(b"<file>", out);
    };
    let rest = sink.take(first, out);
    write_slashed(shown, rest, out)
}

// The last n components of a path.
fn last_components(path: &[u8], n: usize) -> Components<'_>
    ensures { result ≡ last_of n (components path.now) }
{
    let mut left = components_of(path);
    for _ in n..components_of(path).count() {
        left.next();
    }
    left
}

// The components that are left, a slash before each.
fn write_slashed<S: Sink>(left: Components<'_>, sink: S, out: &mut [u8]) -> S
    requires fits { S.fits sink out.old (slashed left) }
    ensures value { result ≡ S.after sink (slashed left.entry) }
    ensures buffer { out.new ≡ S.left sink out.old (slashed left.entry) }
{
    let mut rest = sink;
    for component in left {
        rest = rest.take(b"/", out);
        rest = rest.take(component, out);
    }
    rest
}
