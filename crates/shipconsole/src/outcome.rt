// What a call gave: its first line, a line for each record of a receive, and the bytes that were written out. The state line stands
// behind each.
use crate::console::Console;
use crate::status::put_status;
use calllines::answer::put_alert;
use calllines::outcome::{put_out, put_outcome, put_taken};
use connection::refusal;
use connection::refusal::Refusal;
use std::io;
use std::io::Write;
use unit::answer::{Answer, Slot};
use unit::receive::Received;

// A call that writes no bytes.
pub fn done<W: Write>(
    console: &Console,
    name: &str,
    outcome: Result<(), Refusal>,
    out: &mut W,
) -> io::Result<()> {
    put_outcome(name, outcome, out)?;
    put_status(console, out)
}

// A call that writes a datagram, of which `written` bytes stand at the front of what was lent.
pub fn sent<W: Write>(
    console: &Console,
    name: &str,
    outcome: Result<(), Refusal>,
    written: usize,
    lent: &[u8],
    out: &mut W,
) -> io::Result<()> {
    put_outcome(name, outcome, out)?;
    put_out(lent, written, out)?;
    put_status(console, out)
}

// A datagram that was taken.
pub fn taken<W: Write>(
    console: &Console,
    received: Received,
    lent: &[u8],
    out: &mut W,
) -> io::Result<()> {
    put_taken(received.taken, out)?;
    if let Ok(count) = received.taken {
        put_answers(received.answers, count, out)?;
    }
    put_out(lent, received.written, out)?;
    put_status(console, out)
}

// A line for each record, its index first.
fn put_answers<W: Write>(answers: [Slot; 8], count: usize, out: &mut W) -> io::Result<()> {
    for (i, slot) in answers.iter().take(count).enumerate() {
        write!(out, "{i} ")?;
        put_answer(slot.answer, out)?;
    }
    Ok(())
}

fn put_answer<W: Write>(answer: Answer, out: &mut W) -> io::Result<()> {
    match answer {
        Answer::Nothing => writeln!(out, "nothing"),
        Answer::Hello => writeln!(out, "hello"),
        Answer::Spec => writeln!(out, "spec"),
        Answer::Open(size) => writeln!(out, "open {size}"),
        Answer::Again => writeln!(out, "again"),
        Answer::Data {
            number: _,
            start,
            size,
        } => writeln!(out, "data {start} {size}"),
        Answer::Request => writeln!(out, "request"),
        Answer::Ignored => writeln!(out, "ignored"),
        Answer::Warning(description) => put_alert("warning", description, out),
        Answer::Critical(description) => put_alert("critical", description, out),
        Answer::Fatal(description) => put_alert("fatal", description, out),
        Answer::Barred(description) => put_alert("barred", description, out),
        Answer::Refused(refusal) => writeln!(out, "refused {}", refusal::number(refusal)),
    }
}
