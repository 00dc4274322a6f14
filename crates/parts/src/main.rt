// Gathers the short messages on standard input, a 2-byte length before each, and writes two lines for each: what its header
// says, and what the gatherer answers. A length of 65535 is a drop: one byte follows, the reference.
#![tactic(auto)]

ghost use Rattle.std.specs.Prelude.{◌<◌, length, IfSome};

use arrayvec::ArrayVec;
use gather::{Answer, Gatherer, Heading, Ports, Refusal};
use lines::hex::Hex;
use lines::output::Output;
use std::io;
use std::io::{Read, Write};

// The most bytes that are read.
const INPUT: usize = 65536;

// The length that says a drop.
const DROP: u16 = 65535;

// One item of the input.
#[derive(Clone, Copy)]
enum Item<'a> {
    Message(&'a [u8]),
    Drop(u8),
}

// A failed read counts as the end of the input.
fn main(rt: HostRuntime) -> io::Result<()> {
    let mut input = ArrayVec::<u8, INPUT>::new();
    let _ = io::copy(&mut rt.reader().take(INPUT as u64), &mut input);
    let mut out = Output::new(io::writer(&rt));
    gather_all(&input, &mut out)?;
    out.flush()
}

// Each message or drop, from the front; what is cut at the end is left.
fn gather_all<W: Write>(s: &[u8], out: &mut W) -> io::Result<()> {
    let mut store = [0u8; 5600];
    let mut assembly = [0u8; 1400];
    let mut g = Gatherer::fresh();
    let mut rest = s;
    while let Some((item, behind)) = first_of(rest) {
        match item {
            Item::Message(message) => gathered(&mut g, message, &mut store, &mut assembly, out)?,
            Item::Drop(reference) => {
                writeln!(out, "dropped")?;
                g.drop(reference);
            }
        }
        rest = behind;
    }
    Ok(())
}

// The first item, and what is behind it. Of fewer than three bytes there is none.
fn first_of(s: &[u8]) -> Option<(Item<'_>, &[u8])>
    ensures { IfSome result (λ p. length p.1.now < length s.now) }
{
    let (size, rest) = s.split_first_chunk::<2>()?;
    let (reference, behind) = rest.split_first()?;
    let size = u16::from_be_bytes(*size);
    if size == DROP {
        return Some((Item::Drop(*reference), behind));
    }
    let (message, behind) = rest.split_at_checked(usize::from(size))?;
    Some((Item::Message(message), behind))
}

// One message.
fn gathered<W: Write>(
    g: &mut Gatherer,
    message: &[u8],
    store: &mut [u8],
    assembly: &mut [u8],
    out: &mut W,
) -> io::Result<()> {
    show_heading(gather::read(message), out)?;
    let answer = g.step(store, message, assembly);
    show(answer, out)?;
    writeln!(out, "{}", Hex(gather::datagram(answer, message, assembly)))
}

fn show_heading<W: Write>(heading: Result<Heading, Refusal>, out: &mut W) -> io::Result<()> {
    match heading {
        Err(_) => writeln!(out, "no"),
        Ok(Heading::Alone(ports, start)) => writeln!(out, "alone {}{start} ", Shown(ports)),
        Ok(Heading::Part(ports, start, place)) => writeln!(
            out,
            "part {}{start} {} {} {} ",
            Shown(ports),
            place.reference,
            place.total,
            place.place
        ),
    }
}

fn show<W: Write>(answer: Result<Answer, Refusal>, out: &mut W) -> io::Result<()> {
    match answer {
        Err(refusal) => write!(out, "refused {} ", u8::from(refusal)),
        Ok(Answer::Waiting(ports, reference, have, total)) => write!(
            out,
            "waiting {}{reference} {have} {total} ",
            Shown(ports)
        ),
        Ok(Answer::Received(ports, start)) => write!(out, "received {}{start} ", Shown(ports)),
        Ok(Answer::Gathered(ports, count)) => write!(out, "gathered {}{count} ", Shown(ports)),
    }
}

// Both ports, a space behind each.
#[derive(Clone, Copy)]
struct Shown(Ports);

impl std::fmt::Display for Shown {
    fn fmt<W: std::fmt::Write>(&self, f: &mut std::fmt::Formatter<W>) -> std::fmt::Result {
        let ports = self.0;
        write!(f, "{} {} ", ports.destination, ports.originator)
    }
}
