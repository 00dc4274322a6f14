// The facts of a record that is refused, by its reason.
use crate::content::put_content;
use crate::hello::{field_name, part_of, put_first};
use connection::sent::SentRecords;
use lines::hex::ByteString;
use std::io;
use std::io::Write;
use why::{Reason, Under, Why};

// The size of the contents of a Finished.
const FINISHED: usize = 12;

// Nothing further for 7 and 8.
pub(crate) fn put_facts<W: Write>(
    reason: Reason,
    w: Why,
    edition: u8,
    d: &[u8],
    out: &mut W,
) -> io::Result<()> {
    match reason {
        Reason::Forged {
            number,
            fragment,
            key,
            code,
        } => write!(
            out,
            " number {number} fragment {fragment} keys {key}/{code}"
        ),
        Reason::ForgedTwice {
            number,
            fragment,
            started_key,
            started_code,
            open_key,
            open_code,
        } => {
            write!(out, " number {number} fragment {fragment}")?;
            write!(
                out,
                " keys {started_key}/{started_code},{open_key}/{open_code}"
            )
        }
        Reason::TooOld {
            under,
            number,
            highest,
            limit,
        } => {
            put_under(under, number, out)?;
            write!(out, " highest {highest} limit {limit}")
        }
        Reason::Repeated {
            under,
            number,
            highest,
            mark,
        } => {
            put_under(under, number, out)?;
            write!(out, " highest {highest} mark {mark}")
        }
        Reason::BadHello { field } => write!(out, " field {}", field_name(field)),
        Reason::BadClear {
            size,
            first,
            second,
        } => put_content(w.content, size, first, second, out),
        Reason::BadProtected {
            under,
            number,
            size,
            first,
            second,
        } => {
            put_under(under, number, out)?;
            put_content(w.content, size, first, second, out)
        }
        Reason::Unacceptable {
            condition,
            from,
            size,
        } => put_first(condition, edition, part_of(d, from, size), out),
        Reason::Checksum { checksum } => {
            write!(out, " checksum {checksum:08x}")?;
            put_sent(w.sent, out)
        }
        Reason::WrongFinished {
            under,
            number,
            from,
        } => {
            put_under(under, number, out)?;
            write!(out, " found {}", ByteString(part_of(d, from, FINISHED)))
        }
        _ => Ok(()),
    }
}

// ` under open number N`, ` under started number N`
fn put_under<W: Write>(under: Under, number: u16, out: &mut W) -> io::Result<()> {
    match under {
        Under::Open => write!(out, " under open number {number}"),
        Under::Started => write!(out, " under started number {number}"),
    }
}

// ` sent X,..`, the newest first, `-` for none.
fn put_sent<W: Write>(sent: SentRecords, out: &mut W) -> io::Result<()> {
    if sent.count == 0 {
        return write!(out, " sent -");
    }
    write!(out, " sent {:08x}", sent.checksums[0])?;
    for sum in sent.checksums.iter().take(sent.count as usize).skip(1) {
        write!(out, ",{sum:08x}")?;
    }
    Ok(())
}
