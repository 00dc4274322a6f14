// 12 of content that is no hello: its size, and what stands there where the size lets it be read.
use record::header::Content;
use std::io;
use std::io::Write;

// ` content S`, then for an alert of 6 bytes its level and description, for a handshake message of 3 or more its type and stated length,
// for a change cipher spec of 1 its value.
pub(crate) fn put_content<W: Write>(
    content: Content,
    size: usize,
    first: u16,
    second: u16,
    out: &mut W,
) -> io::Result<()> {
    write!(out, " content {size}")?;
    match (content, size) {
        (Content::ChangeCipherSpec, 1) => write!(out, " value {first}"),
        (Content::Alert, 6) => write!(out, " level {first} description {second}"),
        (Content::Handshake, 3..) => write!(out, " type {first} length {second}"),
        _ => Ok(()),
    }
}
