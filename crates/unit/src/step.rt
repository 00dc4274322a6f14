// What a record does to the unit: a small step, of which one function makes the unit after it.
ghost use Rattle.std.specs.Prelude.{◌≡◌};
ghost use Rattle.unit.specs.Step.{step, refusing};

use crate::answer::Answer;
use connection::refusal::Refusal;
use record::window::Window;

// Where a step leads.
#[derive(Clone, Copy)]
pub enum Move {
    // the state stays
    Stay,
    // to Spec
    Change,
    // to Opening, with our flight
    Finish,
    // from Opening to Open
    Settle,
    // to Closed
    Close,
    // to Barred
    Bar,
}

// The answer to a record, the window that it leaves, and where it leads.
#[derive(Clone, Copy)]
pub struct Step {
    pub answer: Answer,
    pub window: Window,
    pub next: Move,
}

// A step.
pub(crate) fn lead(answer: Answer, window: Window, next: Move) -> Step
    ensures { result ≡ step answer window next }
{
    Step {
        answer,
        window,
        next,
    }
}

// A refusal: the state stays.
pub(crate) fn refuse(window: Window, refusal: Refusal) -> Step
    ensures { result ≡ refusing window refusal }
{
    Step {
        answer: Answer::Refused(refusal),
        window,
        next: Move::Stay,
    }
}
