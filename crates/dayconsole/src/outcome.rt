// What a call gave: its first line, the bytes or the reports behind it, and the state line.
use crate::day::Day;
use dayfile::mend::Mended;
use dayfile::refusal::{Refusal, number};
use dayfile::report::report_at;
use lines::hex::Hex;
use std::io;
use std::io::Write;

// `NAME refused R`
pub fn refused<W: Write>(name: &str, refusal: Refusal, out: &mut W) -> io::Result<()> {
    writeln!(out, "{name} refused {}", number(refusal))
}

// `out HEX` behind the first line: the bytes at the front of what was lent.
pub fn put_out<W: Write>(lent: &[u8], size: usize, out: &mut W) -> io::Result<()> {
    match lent.get(..size) {
        None => Ok(()),
        Some(bytes) => writeln!(out, "out {}", Hex(bytes)),
    }
}

// `mend kept N after B changed|unchanged`
pub fn put_mended<W: Write>(said: Mended, out: &mut W) -> io::Result<()> {
    let changed = if said.changed { "changed" } else { "unchanged" };
    writeln!(
        out,
        "mend kept {} after {} {changed}",
        said.kept, said.after
    )
}

// How many bytes the mended file has: the kept reports, and the new trailer.
pub fn mended_size(said: Mended, size: usize) -> usize {
    let trailer = said.kept.saturating_mul(2).saturating_add(3);
    size.saturating_sub(said.after).saturating_add(trailer)
}

// A line `NUMBER HEX` for each of `count` reports, from the front of the file on.
pub fn put_reports<W: Write>(file: &[u8], count: usize, out: &mut W) -> io::Result<()> {
    let mut from: usize = 0;
    for _ in 0..count {
        let Some(found) = report_at(file, from) else {
            return Ok(());
        };
        let start = from.saturating_add(5);
        let end = start.saturating_add(found.size);
        if let Some(bytes) = file.get(start..end) {
            writeln!(out, "{} {}", found.number, Hex(bytes))?;
        }
        from = end;
    }
    Ok(())
}

// `state reports=N file=L`
pub fn state_line<W: Write>(day: &Day, out: &mut W) -> io::Result<()> {
    writeln!(
        out,
        "state reports={} file={}",
        day.sizes.len(),
        day.file.len()
    )
}
