// The answers of a receive in their 192 bytes, laid out as the shore's.
ghost use Rattle.std.specs.Prelude.{◌≡◌, length};
ghost use Rattle.lentunit.specs.Report.{entry_of, report_of};

use connection::refusal;
use lent::{Entry, lay_entry};
use message::alert::description_number;
use unit::answer::{Answer, Slot};

// All eight answers, over all the bytes.
pub(crate) fn put_answers(d: &mut [u8], answers: [Slot; 8])
    requires { length d.old ≡ 192 }
    ensures { d.new ≡ report_of answers }
{
    for (i, slot) in answers.iter().enumerate() {
        lay_entry(d, 24 * i, entry_of(slot.answer));
    }
}

fn entry_of(answer: Answer) -> Entry
    ensures { result ≡ entry_of answer }
{
    match answer {
        Answer::Nothing => Entry::new(0, 0, 0, 0, 0, 0),
        Answer::Hello => Entry::new(1, 0, 0, 0, 0, 0),
        Answer::Spec => Entry::new(3, 0, 0, 0, 0, 0),
        Answer::Open(size) => Entry::new(4, 0, 0, 0, 0, size),
        Answer::Again => Entry::new(5, 0, 0, 0, 0, 0),
        Answer::Data {
            number,
            start,
            size,
        } => Entry::new(6, 0, 0, number, start, size),
        Answer::Request => Entry::new(12, 0, 0, 0, 0, 0),
        Answer::Ignored => Entry::new(13, 0, 0, 0, 0, 0),
        Answer::Warning(description) => Entry::new(7, 0, description_number(description), 0, 0, 0),
        Answer::Critical(description) => Entry::new(8, 0, description_number(description), 0, 0, 0),
        Answer::Fatal(description) => Entry::new(9, 0, description_number(description), 0, 0, 0),
        Answer::Barred(description) => Entry::new(10, 0, description_number(description), 0, 0, 0),
        Answer::Refused(refused) => Entry::new(11, refusal::number(refused), 0, 0, 0, 0),
    }
}
