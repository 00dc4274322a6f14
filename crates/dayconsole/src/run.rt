// Running the call that a line makes. Its words were read when the call was told (`call_of`).
use crate::call::{Call, call_of};
use crate::day::Day;
use crate::outcome::{mended_size, put_mended, put_out, put_reports, refused, state_line};
use dayfile::mend::mend_file;
use dayfile::read::read_file;
use dayfile::write::write_file;
use lines::hex::push_bytes;
use lines::number::{number, room};
use lines::run::{Driven, bad_line};
use lines::words::word;
use std::io;
use std::io::Write;

impl Driven for Day {
    fn run<W: Write>(&mut self, line: &[u8], out: &mut W) -> io::Result<()> {
        let Some(call) = call_of(line) else {
            return bad_line(out);
        };
        match call {
            Call::Report => run_report(self, line, out)?,
            Call::File => run_file(self, line, out)?,
            Call::Clear => {
                self.clear();
                writeln!(out, "clear ok")?;
            }
            Call::Write => run_write(self, line, out)?,
            Call::Read => run_read(self, out)?,
            Call::Mend => run_mend(self, line, out)?,
        }
        state_line(self, out)
    }
}

// Appends to the list at hand, where it has room.
fn run_report<W: Write>(day: &mut Day, line: &[u8], out: &mut W) -> io::Result<()> {
    let number = number(word(line, 1), 65535) as u16;
    match day.report(number, word(line, 2)) {
        Ok(()) => writeln!(out, "report ok"),
        Err(_) => writeln!(out, "report full"),
    }
}

// Appends to the file at hand, where it has room.
fn run_file<W: Write>(day: &mut Day, line: &[u8], out: &mut W) -> io::Result<()> {
    match push_bytes(word(line, 1), &mut day.file) {
        Ok(_) => writeln!(out, "file ok"),
        Err(_) => writeln!(out, "file full"),
    }
}

fn run_write<W: Write>(day: &mut Day, line: &[u8], out: &mut W) -> io::Result<()> {
    let lent = &mut day.room[..];
    let size = room(word(line, 1), lent);
    match write_file(&day.numbers, &day.sizes, &day.bytes, &mut lent[..size]) {
        Err(refusal) => refused("write", refusal, out),
        Ok(written) => {
            writeln!(out, "write ok")?;
            put_out(lent, written, out)
        }
    }
}

fn run_read<W: Write>(day: &Day, out: &mut W) -> io::Result<()> {
    match read_file(&day.file) {
        Err(refusal) => refused("read", refusal, out),
        Ok(count) => {
            writeln!(out, "read ok")?;
            put_reports(&day.file, count, out)
        }
    }
}

fn run_mend<W: Write>(day: &mut Day, line: &[u8], out: &mut W) -> io::Result<()> {
    let lent = &mut day.room[..];
    let size = room(word(line, 1), lent);
    match mend_file(&day.file, &mut lent[..size]) {
        Err(refusal) => refused("mend", refusal, out),
        Ok(said) => {
            put_mended(said, out)?;
            put_out(lent, mended_size(said, day.file.len()), out)
        }
    }
}
