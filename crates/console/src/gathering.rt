// Short messages: `message BYTES RANDOM ROOM`, `drop REF`.
use crate::console::Console;
use crate::outcome::{state_line, taken};
use crate::run::ROOM;
use callwords::short::{Short, short_of};
use connection::connection::Connection;
use lines::hex::bytes;
use lines::number::{number, room};
use lines::run::bad_line;
use lines::words::word;
use shortlines::message::put_answer;
use std::io;
use std::io::Write;

// Runs a line of short messages, which needs a connection.
pub fn run<W: Write>(
    console: &mut Console,
    connection: Connection,
    line: &[u8],
    out: &mut W,
) -> io::Result<()> {
    match short_of(line) {
        Some(Short::Message) => run_message(console, connection, line, out),
        Some(Short::Drop) => run_drop(console, line, out),
        None => bad_line(out),
    }
}

// A message gathered, and the datagram that it shows received: the gatherer's answer, what its datagram got, and the state.
fn run_message<W: Write>(
    console: &mut Console,
    connection: Connection,
    line: &[u8],
    out: &mut W,
) -> io::Result<()> {
    let message = bytes(word(line, 1));
    let random = bytes(word(line, 2));
    let mut lent = [0u8; ROOM];
    let size = room(word(line, 3), &lent);
    let mut assembly = [0u8; 1400];
    let messaged = short::message(
        connection,
        &mut console.gatherer,
        &mut console.store,
        &message,
        &mut assembly,
        &random,
        &mut lent[..size],
    );
    let answer = messaged.answer;
    put_answer(answer, gather::datagram(answer, &message, &assembly), out)?;
    match messaged.received {
        Some(received) => {
            console.count(received);
            taken(console, received, &lent, out)
        }
        None => state_line(console, out),
    }
}

// `drop ok`, always.
fn run_drop<W: Write>(console: &mut Console, line: &[u8], out: &mut W) -> io::Result<()> {
    let reference = number(word(line, 1), 255) as u8;
    console.gatherer.drop(reference);
    writeln!(out, "drop ok")?;
    state_line(console, out)
}
