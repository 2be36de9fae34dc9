// Where words and texts end, if they fit: what they are, the reading before has stored. They are asked of the functions that the reading itself calls and the
// compiler leaves alone. What it makes a part of the reading must not be called from here, too: it would leave that alone as well, and reading would be slower.
// (A template and two places stay three parameters, as in every reader below: a part of it as one slice would move the places that are told, and be no plainer: d;
// and `even` is a `bool`, as in reader: a.)
#![tactic(auto)]

ghost use Rattle.std.specs.Prelude.{◌≡◌, ℕ, ◌+◌, ◌-◌, ◌≤◌, length};
ghost use Rattle.buffer.specs.Bytes.{byte};
ghost use Rattle.words.specs.Trying.{misfit, further};
ghost use Rattle.words.specs.Words.{specifier_at, parameter_at};
ghost use Rattle.parts.specs.Parts.{segment_of};
ghost use Rattle.segments.specs.Sizes.{Narrow};
ghost use Rattle.building.specs.Reading.{make_or, text_at, word_at, inner_at, percent_at};
ghost use Rattle.endings.specs.Ending.{end_of, named_end, made_end, word_end, plain_end, EndsWithin};

use lists::{further_words, parse_parameter, parse_word, plain_end};
use parts::{Parts, no_parts};

// A specifier: a word that names one.
#[tactic(auto, unfolding(words::specs::Within::Fitting))]
fn specifier_end(t: &[u8], from: usize, to: usize) -> Option<usize>
    requires { (from ≤ to) × (to ≤ length t.now) }
    ensures value { result ≡ end_of (specifier_at t.now from to) }
    ensures within { EndsWithin (from + 1) to result }
{
    let Ok(Some((j, p))) = parse_word(t, from, to, no_parts()) else {
        return None;
    };
    named_end(p, j)
}

fn named_end(p: Parts, j: usize) -> Option<usize>
    ensures { result ≡ named_end p.metadata j }
{
    p.metadata.is_some().then_some(j)
}

#[tactic(auto, unfolding(words::specs::Within::Fitting))]
pub fn parameter_end(t: &[u8], from: usize, to: usize) -> Option<usize>
    requires { (from ≤ to) × (to ≤ length t.now) }
    ensures value { result ≡ end_of (parameter_at t.now from to) }
    ensures within { EndsWithin (from + 1) to result }
{
    let Ok(Some((j, _))) = parse_parameter(t, from, to, no_parts()) else {
        return None;
    };
    Some(j)
}

// Words that make a segment end at j.
#[tactic(auto, unfolding(parts::specs::Parts::segment_of, parts::specs::Parts::specified, building::specs::Reading::make_or, building::specs::Reading::make))]
fn made_end(p: Parts, j: usize) -> Option<usize>
    ensures { result ≡ end_of (make_or misfit 0 j (segment_of p)) }
{
    if p.twice {
        return None;
    }
    named_end(p, j)
}

// Words behind a first one, which ends at `from` and gave p: where they end, if all of them make a segment.
#[tactic(auto, unfolding(words::specs::Within::Fitting))]
fn further_end(t: &[u8], from: usize, to: usize, p: Parts) -> Option<usize>
    requires { (from ≤ to) × (to ≤ length t.now) × Narrow p.format.width }
    ensures by_index { (n : ℕ) → to - from ≤ n → result ≡ made_end (further (byte ":") t.now to (word_at t.now to) n from p) }
    ensures within { EndsWithin from to result }
{
    let Ok(Some((j, q))) = further_words(t, from, to, p) else {
        return None;
    };
    made_end(q, j)
}

// An inner list of words that makes a segment.
#[tactic(auto, unfolding(words::specs::Within::Fitting))]
fn inner_end(t: &[u8], from: usize, to: usize) -> Option<usize>
    requires { (from ≤ to) × (to ≤ length t.now) }
    ensures value { result ≡ end_of (inner_at t.now from to 0) }
    ensures within { EndsWithin (from + 1) to result }
{
    let Ok(Some((j, p))) = parse_word(t, from, to, no_parts()) else {
        return None;
    };
    further_end(t, j, to, p)
}

// What comes before the parameters in an item: at even depth an inner list, at odd depth a specifier.
pub fn word_end(t: &[u8], from: usize, to: usize, even: bool) -> Option<usize>
    requires { (from ≤ to) × (to ≤ length t.now) }
    ensures value { result ≡ word_end even t.now from to }
    ensures within { EndsWithin (from + 1) to result }
{
    if even {
        return inner_end(t, from, to);
    }
    specifier_end(t, from, to)
}

#[tactic(auto, unfolding(building::specs::Reading::text_at, building::specs::Reading::text_to, building::specs::Reading::make))]
pub fn text_end(t: &[u8], from: usize, to: usize) -> Option<usize>
    requires { (from ≤ to) × (to ≤ length t.now) }
    ensures value { result ≡ end_of (text_at t.now from to 0) }
    ensures within { EndsWithin (from + 1) to result }
{
    let j = plain_end(t, from, to);
    (from < j).then_some(j)
}

// A `%` with its parameter.
fn percent_end(t: &[u8], from: usize, to: usize) -> Option<usize>
    requires { (from ≤ to) × (to ≤ length t.now) }
    ensures value { result ≡ end_of (percent_at t.now from to) }
    ensures within { EndsWithin (from + 1) to result }
{
    if !runs::stands_at(b'%', t, from, to) {
        return None;
    }
    parameter_end(t, from + 1, to)
}

// A piece of a group that is no brace.
pub fn plain_piece_end(t: &[u8], from: usize, to: usize) -> Option<usize>
    requires { (from ≤ to) × (to ≤ length t.now) }
    ensures value { result ≡ plain_end t.now from to }
    ensures within { EndsWithin (from + 1) to result }
{
    match text_end(t, from, to) {
        None => percent_end(t, from, to),
        text => text,
    }
}
