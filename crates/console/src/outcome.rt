// What a call gave: its first line, a line for each record of a receive, and the bytes that were written out. The state line stands
// behind each.
use crate::console::Console;
use calllines::answer::put_answers;
use calllines::outcome::{put_out, put_outcome, put_taken};
use calllines::status::put_status;
use connection::receive::Received;
use connection::refusal::Refusal;
use std::io;
use std::io::Write;

// A call that writes no bytes.
pub fn done<W: Write>(
    console: &Console,
    name: &str,
    outcome: Result<(), Refusal>,
    out: &mut W,
) -> io::Result<()> {
    put_outcome(name, outcome, out)?;
    state_line(console, out)
}

// A call that writes a record, of which `written` bytes stand at the front of what was lent.
pub fn sent<W: Write>(
    console: &Console,
    name: &str,
    outcome: Result<(), Refusal>,
    written: usize,
    lent: &[u8],
    out: &mut W,
) -> io::Result<()> {
    put_outcome(name, outcome, out)?;
    put_out(lent, written, out)?;
    state_line(console, out)
}

// A datagram that was taken.
pub fn taken<W: Write>(
    console: &Console,
    received: Received,
    lent: &[u8],
    out: &mut W,
) -> io::Result<()> {
    put_taken(received.taken, out)?;
    if let Ok(count) = received.taken {
        put_answers(received.answers, count, out)?;
    }
    put_out(lent, received.written, out)?;
    state_line(console, out)
}

// The state behind what a line said.
pub fn state_line<W: Write>(console: &Console, out: &mut W) -> io::Result<()> {
    put_status(console.connection, console.tally, console.gatherer, out)
}
