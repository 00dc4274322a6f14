// The first line of a short message.
use gather::{Answer, Ports, Refusal};
use lines::hex::ByteString;
use std::io;
use std::io::Write;

// `message refused R`, `message waiting REF HAVE TOTAL ports D O`, `message received START LEN ports D O` or `message
// gathered HEX ports D O`, where the datagram is the one that is shown.
pub fn put_answer<W: Write>(
    answer: Result<Answer, Refusal>,
    datagram: &[u8],
    out: &mut W,
) -> io::Result<()> {
    match answer {
        Err(refusal) => writeln!(out, "message refused {}", u8::from(refusal)),
        Ok(Answer::Waiting(ports, reference, have, total)) => {
            write!(out, "message waiting {reference} {have} {total}")?;
            put_ports(ports, out)
        }
        Ok(Answer::Received(ports, start)) => {
            write!(out, "message received {start} {}", datagram.len())?;
            put_ports(ports, out)
        }
        Ok(Answer::Gathered(ports, _)) => {
            write!(out, "message gathered {}", ByteString(datagram))?;
            put_ports(ports, out)
        }
    }
}

fn put_ports<W: Write>(ports: Ports, out: &mut W) -> io::Result<()> {
    writeln!(out, " ports {} {}", ports.destination, ports.originator)
}
