// 1 to 5: where the record at fault begins, and what bears on it.
use std::io;
use std::io::Write;
use why::Reason;

pub(crate) fn put_framing<W: Write>(reason: Reason, out: &mut W) -> io::Result<()> {
    match reason {
        Reason::Size { size } => write!(out, " at 0 size {size}"),
        Reason::Header { at, left, needs } => write!(out, " at {at} left {left} needs {needs}"),
        Reason::TypeByte { at, byte } => write!(out, " at {at} type {byte}"),
        Reason::Fragment { at, stated, left } => {
            write!(out, " at {at} length {stated} left {left}")
        }
        Reason::Ninth { at } => write!(out, " at {at}"),
        _ => Ok(()),
    }
}
