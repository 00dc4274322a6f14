// The unit's tally: how many records were handed out, forged, too old and repeated (01).
ghost use Rattle.std.specs.Prelude.{ℕ, ◌≡◌};
ghost use Rattle.connection.specs.Tally.{bumped, fresh_tally, counted_answer, counted_refusal, counted_of};

use crate::answer::{Answer, Slot};
use crate::refusal::Refusal;

// Each count stops at 2^32 - 1.
#[derive(Clone, Copy)]
pub struct Tally {
    pub handed: u32,
    pub forged: u32,
    pub old: u32,
    pub repeated: u32,
}

impl Tally {
    // Nothing counted yet.
    pub fn fresh() -> Tally
        ensures { result ≡ fresh_tally }
    {
        Tally {
            handed: 0,
            forged: 0,
            old: 0,
            repeated: 0,
        }
    }

    // One answer counted.
    pub fn with_answer(self, answer: Answer) -> Tally
        ensures { result ≡ counted_answer self answer }
    {
        let mut t = self;
        match answer {
            Answer::Data {
                number: _,
                start: _,
                size: _,
            } => {
                t.handed = more(t.handed);
                t
            }
            Answer::Refused(refusal) => t.with_refusal(refusal),
            Answer::Nothing => t,
            Answer::Reply(_) => t,
            Answer::Resent(_) => t,
            Answer::Spec => t,
            Answer::Open => t,
            Answer::Again => t,
            Answer::Warning(_) => t,
            Answer::Critical(_) => t,
            Answer::Fatal(_) => t,
            Answer::Barred(_) => t,
        }
    }

    // One refusal counted: 9, 10 and 11, and no others.
    fn with_refusal(self, refusal: Refusal) -> Tally
        ensures { result ≡ counted_refusal self refusal }
    {
        let mut t = self;
        match refusal {
            Refusal::Forged => {
                t.forged = more(t.forged);
                t
            }
            Refusal::TooOld => {
                t.old = more(t.old);
                t
            }
            Refusal::Repeated => {
                t.repeated = more(t.repeated);
                t
            }
            Refusal::Framing(_) => t,
            Refusal::Room => t,
            Refusal::Ended => t,
            Refusal::NotAllowed => t,
            Refusal::Malformed => t,
            Refusal::Unacceptable => t,
            Refusal::Checksum => t,
            Refusal::Spent => t,
            Refusal::Argument => t,
            Refusal::WrongFinished => t,
        }
    }

    // The answers of one receive counted.
    pub fn with_answers(self, answers: [Slot; 8]) -> Tally
        ensures { result ≡ counted_of self answers }
    {
        let mut t = self;
        for slot in &answers {
            t = t.with_answer(slot.answer);
        }
        t
    }
}

// One more, up to the stop.
fn more(n: u32) -> u32
    ensures { result ≡ bumped n }
{
    if n == u32::MAX {
        return n;
    }
    n + 1
}
