// The first line of a call, and the bytes that it wrote out.
use connection::receive::Untaken;
use connection::refusal;
use connection::refusal::Refusal;
use lines::hex::Hex;
use std::io;
use std::io::Write;

// `CALL ok` or `CALL refused R`.
pub fn put_outcome<W: Write>(
    name: &str,
    outcome: Result<(), Refusal>,
    out: &mut W,
) -> io::Result<()> {
    match outcome {
        Ok(()) => writeln!(out, "{name} ok"),
        Err(refusal) => writeln!(out, "{name} refused {}", refusal::number(refusal)),
    }
}

// `out HEX`, if bytes were written at the front of the room that was lent.
pub fn put_out<W: Write>(room: &[u8], written: usize, out: &mut W) -> io::Result<()> {
    match room.get(..written) {
        None | Some([]) => Ok(()),
        Some(bytes) => writeln!(out, "out {}", Hex(bytes)),
    }
}

// `receive records N`, behind which stands a line for each record, `receive refused R`, or `receive refused R at P`.
pub fn put_taken<W: Write>(taken: Result<usize, Untaken>, out: &mut W) -> io::Result<()> {
    match taken {
        Ok(count) => writeln!(out, "receive records {count}"),
        Err(Untaken::Refused(refusal)) => put_outcome("receive", Err(refusal), out),
        Err(Untaken::Misframed(refusal, place)) => {
            writeln!(
                out,
                "receive refused {} at {place}",
                refusal::number(refusal)
            )
        }
    }
}
