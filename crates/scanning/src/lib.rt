// The search for colour sequences, a byte at a time.
#![tactic(auto)]

ghost use Rattle.std.specs.Prelude.{◌≡◌, cond, ◌+◌, ◌<◌, ◌^◌, eqb};
ghost use Rattle.buffer.specs.Bytes.{byte};
ghost use Rattle.colour.specs.declared.State.TheVariants.{LoneZero, Digits};
ghost use Rattle.colour.specs.Sequences.{in_sequence};
ghost use Rattle.colour.specs.Machine.{act_among, act_of, moved};

use colour::{Act, Scan, State};

pub mod skipping;

// What the byte b does in the state q.
pub fn act_of(q: State, b: u8) -> Act
    ensures { result ≡ act_of q b }
{
    if b == 27 {
        return Act::Esc;
    }
    match q {
        State::Outside => Act::Text,
        State::Escape => after_escape(b),
        State::Bracket => among(Act::Done, after_bracket(b), b),
        State::LoneZero => among(Act::Reset, State::Digits, b),
        State::Digits => among(Act::Done, State::Digits, b),
    }
}

fn after_escape(b: u8) -> Act
    ensures { result ≡ cond (eqb b (byte "[")) (Act.More State.Bracket) Act.Text }
{
    if b == b'[' {
        return Act::More(State::Bracket);
    }
    Act::Text
}

fn after_bracket(b: u8) -> State
    ensures { result ≡ cond (eqb b (byte "0")) LoneZero Digits }
{
    if b == b'0' {
        return State::LoneZero;
    }
    State::Digits
}

// What a byte does among digits and `;`.
fn among(ending: Act, onward: State, b: u8) -> Act
    ensures { result ≡ act_among ending onward b }
{
    if b == b'm' {
        return ending;
    }
    if in_sequence(b) {
        return Act::More(onward);
    }
    Act::Text
}

// Whether b is a digit or `;`.
#[tactic(auto, unfolding(colour::specs::Sequences::in_sequence, runs::specs::Runs::digit, utf8::specs::Utf8::within))]
pub fn in_sequence(b: u8) -> bool
    ensures { result ≡ in_sequence b }
{
    b.is_ascii_digit() || b == b';'
}

// The search after one byte more.
pub fn step(t: Scan, b: u8) -> Scan
    requires { (t.sequences + t.held + 1 < 2 ^ 62) × (t.resets + 1 < 2 ^ 62) }
    ensures { result ≡ moved (act_of t.state b) t }
{
    match act_of(t.state, b) {
        Act::Text => Scan {
            state: State::Outside,
            held: 0,
            ..t
        },
        Act::Esc => Scan {
            state: State::Escape,
            held: 1,
            ..t
        },
        Act::More(state) => Scan {
            state,
            held: t.held + 1,
            ..t
        },
        Act::Done => Scan {
            state: State::Outside,
            held: 0,
            sequences: t.sequences + (t.held + 1),
            ..t
        },
        Act::Reset => Scan {
            state: State::Outside,
            held: 0,
            sequences: t.sequences + (t.held + 1),
            resets: t.resets + 1,
        },
    }
}
