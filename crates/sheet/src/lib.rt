// The session sheet: what is laid out as one, and its bodies.
#![tactic(auto)]

ghost use Rattle.std.specs.Prelude.{◌≡◌, ◌+◌, ◌*◌, ◌≤◌, ◌<◌, ◌^◌, length};
ghost use Rattle.record.specs.Layout.{u32};
ghost use Rattle.sheet.specs.Sheets.{body_count, body_bytes, bodies_from, is_head, are_records, is_sheet};

use record::Form;
use record::layout::right_size;
use record::numbers::{u16_at, u32_at};
use settings::{form_of, is_known};

// Whether the bytes are laid out exactly as a sheet is.
pub fn is_sheet(d: &[u8]) -> bool
    ensures { result ≡ is_sheet d.now }
{
    if d.len() < 2 || 65536 < d.len() {
        return false;
    }
    let n = body_count(d);
    let from = 2 + 4 * n;
    // before the lengths are read: a short sheet may claim 65,535 bodies
    if n == 0 || d.len() < from {
        return false;
    }
    if bodies_end(d, n, from) != d.len() {
        return false;
    }
    let to = from + body_length(d, 2);
    is_head(&d[from..to]) && are_records(form_of(d[from]), d, n - 1, 6, to)
}

// The number of bodies that the contents name.
#[tactic(auto, unfolding(crate::specs::Sheets::body_count))]
pub fn body_count(d: &[u8]) -> usize
    requires { 2 ≤ length d.now }
    ensures { (result ≡ body_count d.now) × (result ≤ 65535) }
{
    u16_at(d, 0)
}

// The length of the body whose length stands at the place i of the contents.
pub fn body_length(d: &[u8], i: usize) -> usize
    requires { i + 4 ≤ length d.now }
    ensures { (result ≡ u32 d.now i) × (result < 2 ^ 32) }
{
    u32_at(d, i)
}

// Where n bodies end that begin at the place `from`. Lengths are read by their places, here and below (d): so the definitions count them. The contents fit the sheet, so that no sum of their lengths comes near 64 bits.
fn bodies_end(d: &[u8], n: usize, from: usize) -> usize
    requires { (2 + 4 * n ≤ length d.now) × ((from ≤ length d.now) × (length d.now ≤ 65536)) }
    ensures { result ≡ from + body_bytes n d.now 2 }
{
    let mut end = from;
    for k in 0..n {
        end += body_length(d, 2 + 4 * k);
    }
    end
}

// Whether a body can be body 0: it has a settings byte, with known bits only.
#[tactic(auto, unfolding(crate::specs::Sheets::is_head))]
fn is_head(body: &[u8]) -> bool
    ensures { result ≡ is_head body.now }
{
    body.first().is_some_and(|settings| is_known(*settings))
}

// Whether n bodies are records of the right size: their lengths stand from the place `contents` on, they from the place `from` on. It is no walk over
// session's `Records` (d), which promises what is yet to be found out here.
fn are_records(form: Form, d: &[u8], n: usize, contents: usize, from: usize) -> bool
    requires { (contents + 4 * n ≤ length d.now) × (from + body_bytes n d.now contents ≡ length d.now) }
    ensures { result ≡ are_records form (bodies_from n d.now contents from) }
{
    let mut j = from;
    for k in 0..n {
        let end = j + body_length(d, contents + 4 * k);
        if !right_size(form, &d[j..end]) {
            return false;
        }
        j = end;
    }
    true
}
