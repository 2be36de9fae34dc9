// Dressing: a text that stands in the line becomes its formatted text there, without a second buffer. It stands where its finished form will end,
// so that it is streamed forward: the place read is never before the place written.
#![tactic(auto)]

ghost use Rattle.std.specs.Prelude.{◌≡◌, ◌+◌, ◌≤◌, length};
ghost use Rattle.buffer.specs.Bytes.{part};
ghost use Rattle.buffer.specs.Buffer.{put_at};
ghost use Rattle.colour.specs.Sequences.{reinserted};
ghost use Rattle.colour.specs.Looks.{prefix};
ghost use Rattle.dress.specs.Around.{around, dressed};

use buffer::{fill, put};
use colour::Format;
use measure::padding::pad_byte;
use prefix::{RESET, put_prefix};

// What stands around a text: its format, the padding on either side, and the bytes inserted into it.
#[derive(Clone, Copy)]
pub struct Frame {
    pub format: Format,
    pub left: usize,
    pub right: usize,
    pub inserted: usize,
}

// The text from i up to e becomes the formatted text at `at`, in the frame w with its padding; the place after it is returned. The bytes inserted that
// the frame tells need no look: the text's place tells them too.
pub fn dress(out: &mut [u8], at: usize, i: usize, e: usize, w: Frame) -> usize
    requires i_le_e { (i ≤ e) × (at + (length (prefix w.format.look) + (w.left + length (reinserted (prefix w.format.look) (part i e out.old)))) ≡ e) }
    requires r_in_bounds { e + (w.right + 4) ≤ length out.old }
    ensures { (result ≡ e + (w.right + 4)) × (out.new ≡ put_at out.old at (dressed w.format w.left w.right (part i e out.old))) }
{
    let mut bytes = [0; 16];
    let n = put_prefix(w.format.look, &mut bytes);
    let p = &bytes[..n];
    let z = pad_byte(w.format.padding);
    let a = put(out, at, p);
    let o = fill(out, a, w.left, z);
    spread(out, o, i, e, p);
    let m = fill(out, e, w.right, z);
    put(out, m, &RESET)
}

// The same for a prefix p and without padding.
pub fn dress_bare(out: &mut [u8], at: usize, i: usize, e: usize, p: &[u8]) -> usize
    requires i_le_e { (i ≤ e) × (at + (length p.now + (0 + length (reinserted p.now (part i e out.old)))) ≡ e) }
    requires e_in_bounds { e + (0 + 4) ≤ length out.old }
    ensures { (result ≡ e + (0 + 4)) × (out.new ≡ put_at out.old at (around p.now 0 (reinserted p.now (part i e out.old)) 0 0)) }
{
    let o = put(out, at, p);
    spread(out, o, i, e, p);
    put(out, e, &RESET)
}

// The text from i up to e goes to o, with p inserted after each reset, so that it ends at e. Where it needn't move there is nothing to insert: few
// texts hold a reset, and no other is looked at.
fn spread(out: &mut [u8], o: usize, i: usize, e: usize, p: &[u8])
    requires { (i ≤ e) × ((e ≤ length out.old) × (o + length (reinserted p.now (part i e out.old)) ≡ e)) }
    ensures { out.new ≡ put_at out.old o (reinserted p.now (part i e out.old)) }
{
    if o < i {
        insert(out, o, i, e, p);
    }
}

// The same, whether it moves or not. All of the text stands in the buffer, so that the bytes at the place read are compared with the reset. Where
// the place written has reached the place read nothing is left to insert, and the rest stands where it must. It is no `for` (d): a turn reads one byte or
// four, and writes over what it has read.
fn insert(out: &mut [u8], o: usize, i: usize, e: usize, p: &[u8])
    requires { (i ≤ e) × ((e ≤ length out.old) × (o + length (reinserted p.now (part i e out.old)) ≡ e)) }
    ensures { out.new ≡ put_at out.old o (reinserted p.now (part i e out.old)) }
{
    let mut w = o;
    let mut r = i;
    while w < r {
        if out[r..e].starts_with(&RESET) {
            let v = put(out, w, &RESET);
            w = put(out, v, p);
            r += RESET.len();
        } else {
            out[w] = out[r];
            w += 1;
            r += 1;
        }
    }
}
