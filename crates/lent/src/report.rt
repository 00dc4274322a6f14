// The answers of a receive in their 192 bytes.
ghost use Rattle.std.specs.Prelude.{◌≡◌, ◌+◌, ◌≤◌, length};
ghost use Rattle.digest.specs.Bytes.{laid_over};
ghost use Rattle.lent.specs.Report.{entry, entry_of, entry_bytes, entry_laid, report_of};

use crate::bytes::{eight, four};
use connection::answer::{Answer, Slot};
use connection::refusal;
use digest::put;
use message::alert::description_number;

// The numbers of an answer.
#[derive(Clone, Copy)]
pub struct Entry {
    pub kind: u8,
    pub refusal: u8,
    pub description: u8,
    pub number: u16,
    pub start: usize,
    pub size: usize,
}

impl Entry {
    pub fn new(
        kind: u8,
        refusal: u8,
        description: u8,
        number: u16,
        start: usize,
        size: usize,
    ) -> Entry
        ensures exact { result ≡ entry kind refusal description number start size }
    {
        Entry {
            kind,
            refusal,
            description,
            number,
            start,
            size,
        }
    }
}

// All eight answers, over all the bytes.
pub(crate) fn put_answers(d: &mut [u8], answers: [Slot; 8])
    requires { length d.old ≡ 192 }
    ensures { d.new ≡ report_of answers }
{
    for (i, slot) in answers.iter().enumerate() {
        put_entry(d, 24 * i, entry_of(slot.answer));
    }
}

// One answer, where its 24 bytes fit; else nothing is written.
pub fn lay_entry(d: &mut [u8], at: usize, e: Entry)
    ensures exact { d.new ≡ entry_laid d.old at e }
{
    if 24 <= d.len() && at <= d.len() - 24 {
        put_entry(d, at, e);
    }
}

fn put_entry(d: &mut [u8], at: usize, e: Entry)
    requires { at + 24 ≤ length d.old }
    ensures { d.new ≡ laid_over d.old at (entry_bytes e) }
{
    let head = [e.kind, e.refusal, e.description, 0];
    put(d, at, &head);
    let number = four(e.number as u32);
    put(d, at + 4, &number);
    let start = eight(e.start as u64);
    put(d, at + 8, &start);
    let size = eight(e.size as u64);
    put(d, at + 16, &size);
}

fn entry_of(answer: Answer) -> Entry
    ensures { result ≡ entry_of answer }
{
    match answer {
        Answer::Nothing => Entry::new(0, 0, 0, 0, 0, 0),
        Answer::Reply(size) => Entry::new(1, 0, 0, 0, 0, size),
        Answer::Resent(size) => Entry::new(2, 0, 0, 0, 0, size),
        Answer::Spec => Entry::new(3, 0, 0, 0, 0, 0),
        Answer::Open => Entry::new(4, 0, 0, 0, 0, 0),
        Answer::Again => Entry::new(5, 0, 0, 0, 0, 0),
        Answer::Data {
            number,
            start,
            size,
        } => Entry::new(6, 0, 0, number, start, size),
        Answer::Warning(description) => Entry::new(7, 0, description_number(description), 0, 0, 0),
        Answer::Critical(description) => Entry::new(8, 0, description_number(description), 0, 0, 0),
        Answer::Fatal(description) => Entry::new(9, 0, description_number(description), 0, 0, 0),
        Answer::Barred(description) => Entry::new(10, 0, description_number(description), 0, 0, 0),
        Answer::Refused(refused) => Entry::new(11, refusal::number(refused), 0, 0, 0, 0),
    }
}
