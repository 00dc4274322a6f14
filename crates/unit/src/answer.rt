// What a receive answers to each record.
ghost use Rattle.std.specs.Prelude.{◌≡◌};
ghost use Rattle.unit.specs.Answer.{as_ashore, opens_by};

use connection::answer;
use connection::refusal::Refusal;
use message::alert::Description;

#[derive(Clone, Copy)]
pub enum Answer {
    // no record stood in this place: a row of the report like the others, number 0 in the lent bytes, so no Option
    Nothing,
    // a ServerHello that answers the offer
    Hello,
    // change cipher spec
    Spec,
    // the shore's Finished verified: our flight of so many bytes is written
    Open(usize),
    // Finished verified once more
    Again,
    // data handed out: its number, and where it stands in the datagram
    Data {
        number: u16,
        start: usize,
        size: usize,
    },
    // a HelloRequest, reported
    Request,
    // a HelloRequest in the middle of a handshake, ignored
    Ignored,
    // alerts, by level; Fatal is a clear one, Barred a protected one
    Warning(Description),
    Critical(Description),
    Fatal(Description),
    Barred(Description),
    Refused(Refusal),
}

// An answer in its place among eight.
#[derive(Clone, Copy)]
pub struct Slot {
    pub answer: Answer,
}

// The answer as the shore would give it: what it hands out, counts and refuses is the same.
pub fn as_ashore(answer: Answer) -> answer::Answer
    ensures { result ≡ as_ashore answer }
{
    match answer {
        Answer::Nothing => answer::Answer::Nothing,
        Answer::Hello => answer::Answer::Nothing,
        Answer::Spec => answer::Answer::Spec,
        Answer::Open(_) => answer::Answer::Open,
        Answer::Again => answer::Answer::Again,
        Answer::Data {
            number,
            start,
            size,
        } => answer::Answer::Data {
            number,
            start,
            size,
        },
        Answer::Request => answer::Answer::Nothing,
        Answer::Ignored => answer::Answer::Nothing,
        Answer::Warning(description) => answer::Answer::Warning(description),
        Answer::Critical(description) => answer::Answer::Critical(description),
        Answer::Fatal(description) => answer::Answer::Fatal(description),
        Answer::Barred(description) => answer::Answer::Barred(description),
        Answer::Refused(refusal) => answer::Answer::Refused(refusal),
    }
}

// How many bytes of the flight are to be written, after an answer more.
pub(crate) fn opens_by(written: usize, answer: Answer) -> usize
    ensures { result ≡ opens_by written answer }
{
    match answer {
        Answer::Open(size) => size,
        Answer::Nothing => written,
        Answer::Hello => written,
        Answer::Spec => written,
        Answer::Again => written,
        Answer::Data {
            number: _,
            start: _,
            size: _,
        } => written,
        Answer::Request => written,
        Answer::Ignored => written,
        Answer::Warning(_) => written,
        Answer::Critical(_) => written,
        Answer::Fatal(_) => written,
        Answer::Barred(_) => written,
        Answer::Refused(_) => written,
    }
}
