// What a record does to the handshake that is asked about it, where it makes no new reply: a small step, of which one function makes
// the handshake after it.
ghost use Rattle.std.specs.Prelude.{◌≡◌};
ghost use Rattle.connection.specs.Step.{step, refusing_step, led_by, stepped_by, is_stay};

use crate::answer::{Answer, Judged};
use crate::handshake::Handshake;
use crate::refusal::Refusal;
use crate::state::State;
use record::window::Window;

// Where a step leads.
#[derive(Clone, Copy)]
pub enum Move {
    // the state stays
    Stay,
    // to Spec
    Change,
    // to Open
    Open,
    // to Closed
    Close,
    // to Barred
    Bar,
}

// The answer to a record, the window that it leaves, and where it leads.
#[derive(Clone, Copy)]
pub struct Step {
    pub answer: Answer,
    pub window: Window,
    pub next: Move,
}

pub(crate) fn lead(answer: Answer, window: Window, next: Move) -> Step
    ensures { result ≡ step answer window next }
{
    Step {
        answer,
        window,
        next,
    }
}

// A refusal: the state stays.
pub(crate) fn refuse(window: Window, refusal: Refusal) -> Step
    ensures { result ≡ refusing_step window refusal }
{
    Step {
        answer: Answer::Refused(refusal),
        window,
        next: Move::Stay,
    }
}

// The handshake that a step leaves.
pub(crate) fn led(h: Handshake, window: Window, next: Move) -> Handshake
    ensures { result ≡ led_by h window next }
{
    let protection = h.protection;
    let k = h.with_protection(protection.with_window(window));
    match next {
        Move::Stay => k,
        Move::Change => k.with_state(State::Spec),
        Move::Open => k.with_state(State::Open),
        Move::Close => k.with_state(State::Closed),
        Move::Bar => k.barred(),
    }
}

// A step's answer, and the handshake that it leaves.
pub(crate) fn judge_by(h: Handshake, step: Step) -> Judged
    ensures { result ≡ stepped_by h step }
{
    let answer = step.answer;
    let next = step.next;
    Judged {
        answer,
        handshake: led(h, step.window, next),
    }
}

// Whether the state stays.
pub(crate) fn stays(next: Move) -> bool
    ensures { result ≡ is_stay next }
{
    matches!(next, Move::Stay)
}
