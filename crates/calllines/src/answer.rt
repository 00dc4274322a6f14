// The lines of a receive, one for each record.
use connection::answer::{Answer, Slot};
use connection::refusal;
use message::alert::{Description, description_number};
use std::io;
use std::io::Write;

// A line for each record, its index first.
pub fn put_answers<W: Write>(answers: [Slot; 8], count: usize, out: &mut W) -> io::Result<()> {
    for (i, slot) in answers.iter().take(count).enumerate() {
        write!(out, "{i} ")?;
        put_answer(slot.answer, out)?;
    }
    Ok(())
}

fn put_answer<W: Write>(answer: Answer, out: &mut W) -> io::Result<()> {
    match answer {
        Answer::Nothing => writeln!(out, "nothing"),
        Answer::Reply(size) => writeln!(out, "reply {size}"),
        Answer::Resent(size) => writeln!(out, "resent {size}"),
        Answer::Spec => writeln!(out, "spec"),
        Answer::Open => writeln!(out, "open"),
        Answer::Again => writeln!(out, "again"),
        Answer::Data {
            number: _,
            start,
            size,
        } => writeln!(out, "data {start} {size}"),
        Answer::Warning(description) => put_alert("warning", description, out),
        Answer::Critical(description) => put_alert("critical", description, out),
        Answer::Fatal(description) => put_alert("fatal", description, out),
        Answer::Barred(description) => put_alert("barred", description, out),
        Answer::Refused(refusal) => writeln!(out, "refused {}", refusal::number(refusal)),
    }
}

// An alert's answer and its description.
pub fn put_alert<W: Write>(name: &str, description: Description, out: &mut W) -> io::Result<()> {
    writeln!(out, "{name} {}", description_number(description))
}
