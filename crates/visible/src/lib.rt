// What is visible of a text: its colour taken out. For who has a coloured line and wants the plain one.
#![tactic(auto)]

ghost use Rattle.std.specs.Prelude.{◌≡◌, ◌++◌, ◌+◌, ◌<◌, ◌≤◌, ◌^◌, length, take, drop, MatchOption};
ghost use Rattle.buffer.specs.Buffer.{Writes};
ghost use Rattle.packing.specs.Packing.{Packable};
ghost use Rattle.answer.specs.Answers.{answer_of, buffer_after};
ghost use Rattle.visible.specs.Visible.{visible_entry};
ghost use Rattle.colour.specs.Sequences.{sequence_length, visible};

use measure::sink::{Count, Place, Sink};
use packing::{Answer, answer_in};
use refusals::Refusal;
use scanning::in_sequence;

// 2^56: an answer has no place for the length of a text from here on.
const TOO_LONG: usize = 72057594037927936;

// What is visible of the text s, at the front of the lent buffer; or a refusal, and the buffer as it was.
pub fn visible_text(s: &[u8], out: &mut [u8]) -> Answer
    ensures answer { result ≡ answer_of (visible_entry s.now out.old) }
    ensures buffer { out.new ≡ buffer_after out.old (visible_entry s.now out.old) }
    ensures packable { Packable result }
{
    if TOO_LONG <= s.len() {
        return Err(Refusal::NotASheet);
    }
    let room = out.len();
    let n = put_visible(s, out);
    answer_in(room, n)
}

// Writes what is visible of s to the front of the buffer where it fits, and returns its length. Where not all of s would fit, it is measured
// first, since what does not fit must leave the buffer as it was.
fn put_visible(s: &[u8], out: &mut [u8]) -> usize
    requires { length s.now < 2 ^ 56 }
    ensures { Writes out.old out.new (visible s.now) result }
{
    if out.len() < s.len() {
        let n = write_visible(s, Count(0), &mut []).0;
        if out.len() < n {
            return n;
        }
    }
    write_visible(s, Place(0), out).0
}

// Tells what is visible of s, stretch by stretch: the bytes up to a colour sequence stay, and the sequence is passed over.
fn write_visible<S: Sink>(s: &[u8], mut sink: S, out: &mut [u8]) -> S
    requires { S.fits sink out.old (visible s.now) }
    ensures value { result ≡ S.after sink (visible s.now) }
    ensures buffer { out.new ≡ S.left sink out.old (visible s.now) }
{
    let mut rest = s;
    // no `for` over places (d): this walk alone goes by stretches, and an iterator would hold it as its `next`
    while !rest.is_empty() {
        let n = stretch_len(rest);
        sink = sink.take(&rest[..n], out);
        rest = past_sequence(&rest[n..]);
    }
    sink
}

// How many bytes of the text stay before a colour sequence begins or the text ends.
fn stretch_len(s: &[u8]) -> usize
    ensures s_value { visible s.now ≡ take result s.now ++ visible (drop result s.now) }
    ensures within { result ≤ length s.now }
    ensures before_sequence { result < length s.now → 0 < sequence_length (drop result s.now) }
{
    (0..s.len())
        .find(
            |&n|
                requires { n ≤ length s.now }
            { sequence_len(&s[n..]).is_some() },
        )
        .unwrap_or(s.len())
}

// The text without the colour sequence that begins it, if one does.
fn past_sequence(s: &[u8]) -> &[u8]
    ensures { result.now ≡ drop (sequence_length s.now) s.now }
{
    match sequence_len(s) {
        Some(n) => &s[n..],
        None => s,
    }
}

// How many bytes the colour sequence has that begins the text, if one does.
fn sequence_len(s: &[u8]) -> Option<usize>
    ensures { MatchOption result (sequence_length s.now ≡ 0) (λ n. (sequence_length s.now ≡ n) × ((0 < n) × (n ≤ length s.now))) }
{
    let rest = s.strip_prefix(b"\x1b[")?;
    let n = rest.iter().position(|b| !in_sequence(*b))?;
    if rest[n] == b'm' { Some(n + 3) } else { None }
}
