// A question that a line asks, and its answer.
use crate::facts::put_facts;
use crate::framing::put_framing;
use crate::point::put_point;
use connection::connection::Connection;
use lines::hex::bytes;
use lines::number::number;
use lines::words::word;
use std::io;
use std::io::Write;
use why::{Why, why};

// Asks what the words of a line say, which are read already, of a connection, and writes the answer.
pub fn put_asked<W: Write>(c: Connection, line: &[u8], out: &mut W) -> io::Result<()> {
    let edition = number(word(line, 1), 255) as u8;
    let datagram = bytes(word(line, 2));
    let random = bytes(word(line, 3));
    let index = number(word(line, 4), 999999999);
    let answer = why(u32::from(edition), c, &datagram, &random, index);
    put_why(edition, answer, &datagram, out)
}

// `why none`, `why refused 16`, `why R at P ..` for a framing fault, or `why R state S kind K place I ..`. What a hello or a Finished
// had is read from the datagram.
pub fn put_why<W: Write>(edition: u8, w: Why, d: &[u8], out: &mut W) -> io::Result<()> {
    let reason = w.reason;
    match why::number(reason) {
        0 => write!(out, "why none")?,
        16 => write!(out, "why refused 16")?,
        n @ 1..=5 => {
            write!(out, "why {n}")?;
            put_framing(reason, out)?;
        }
        n => {
            write!(out, "why {n}")?;
            put_point(w, out)?;
            put_facts(reason, w, edition, d, out)?;
        }
    }
    writeln!(out)
}
