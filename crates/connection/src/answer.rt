// What a receive answers to each record.
ghost use Rattle.std.specs.Prelude.{◌≡◌, ◌+◌, take, drop};
ghost use Rattle.connection.specs.Answer.{refusing, handed_of, reply_size, answer_number, answer_level};

use crate::handshake::Handshake;
use crate::refusal::{Refusal, number};
use message::alert::Description;

#[derive(Clone, Copy)]
pub enum Answer {
    // no record stood in this place: a row of the report like the others, number 0 in the lent bytes, so no Option
    Nothing,
    // a new reply, of so many bytes
    Reply(usize),
    // the kept reply again
    Resent(usize),
    // change cipher spec
    Spec,
    // Finished verified
    Open,
    // Finished verified once more
    Again,
    // data handed out: its number, and where it stands in the datagram
    Data {
        number: u16,
        start: usize,
        size: usize,
    },
    // alerts, by level; Fatal is a clear one, Barred a protected one
    Warning(Description),
    Critical(Description),
    Fatal(Description),
    Barred(Description),
    Refused(Refusal),
}

// The answer to a record, and the handshake that it leaves.
#[derive(Clone, Copy)]
pub struct Judged {
    pub answer: Answer,
    pub handshake: Handshake,
}

// A refusal that changes nothing.
pub(crate) fn refuse(h: Handshake, refusal: Refusal) -> Judged
    ensures { result ≡ refusing refusal h }
{
    Judged {
        answer: Answer::Refused(refusal),
        handshake: h,
    }
}

// An answer in its place among eight.
#[derive(Clone, Copy)]
pub struct Slot {
    pub answer: Answer,
}

// The part of the datagram that an answer hands out; empty where it hands out nothing, or does not fit.
pub fn handed<'a>(datagram: &'a [u8], answer: Answer) -> &'a [u8]
    ensures { result.now ≡ handed_of datagram.now answer }
{
    match answer {
        Answer::Data {
            number: _,
            start,
            size,
        } => {
            if datagram.len() < start {
                return &datagram[..0];
            }
            if datagram.len() - start < size {
                return &datagram[..0];
            }
            &datagram[start..start + size]
        }
        Answer::Nothing => &datagram[..0],
        Answer::Reply(_) => &datagram[..0],
        Answer::Resent(_) => &datagram[..0],
        Answer::Spec => &datagram[..0],
        Answer::Open => &datagram[..0],
        Answer::Again => &datagram[..0],
        Answer::Warning(_) => &datagram[..0],
        Answer::Critical(_) => &datagram[..0],
        Answer::Fatal(_) => &datagram[..0],
        Answer::Barred(_) => &datagram[..0],
        Answer::Refused(_) => &datagram[..0],
    }
}

// How many bytes of the kept reply an answer sends. (0 for none, here and below: the numbers that the lent bytes have.)
pub fn reply_size(answer: Answer) -> usize
    ensures { result ≡ reply_size answer }
{
    match answer {
        Answer::Reply(size) => size,
        Answer::Resent(size) => size,
        Answer::Nothing => 0,
        Answer::Spec => 0,
        Answer::Open => 0,
        Answer::Again => 0,
        Answer::Data {
            number: _,
            start: _,
            size: _,
        } => 0,
        Answer::Warning(_) => 0,
        Answer::Critical(_) => 0,
        Answer::Fatal(_) => 0,
        Answer::Barred(_) => 0,
        Answer::Refused(_) => 0,
    }
}

// The number of the refusal that an answer is; 0 where it is none.
pub fn refused(answer: Answer) -> u8
    ensures { result ≡ answer_number answer }
{
    match answer {
        Answer::Nothing => 0,
        Answer::Reply(_) => 0,
        Answer::Resent(_) => 0,
        Answer::Spec => 0,
        Answer::Open => 0,
        Answer::Again => 0,
        Answer::Data {
            number: _,
            start: _,
            size: _,
        } => 0,
        Answer::Warning(_) => 0,
        Answer::Critical(_) => 0,
        Answer::Fatal(_) => 0,
        Answer::Barred(_) => 0,
        Answer::Refused(refusal) => number(refusal),
    }
}

// The level of the alert that was heard, 1 to 3; 0 where none was.
pub fn level(answer: Answer) -> u8
    ensures { result ≡ answer_level answer }
{
    match answer {
        Answer::Nothing => 0,
        Answer::Reply(_) => 0,
        Answer::Resent(_) => 0,
        Answer::Spec => 0,
        Answer::Open => 0,
        Answer::Again => 0,
        Answer::Data {
            number: _,
            start: _,
            size: _,
        } => 0,
        Answer::Warning(_) => 1,
        Answer::Critical(_) => 2,
        Answer::Fatal(_) => 3,
        Answer::Barred(_) => 3,
        Answer::Refused(_) => 0,
    }
}
