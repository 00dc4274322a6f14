// The frame lister (01): reads one datagram from standard input and prints its records, or the
// refusal.
#![tactic(auto)]

ghost use Rattle.std.specs.Prelude.{◌≡◌, ◌+◌, ◌^◌, ◌<◌, Ok};
ghost use Rattle.record.specs.Datagram.{walk_of};

use arrayvec::ArrayVec;
use lines::output::Output;
use record::datagram::{Misframed, Walk, walked};
use record::header::number_of;
use record::reader::{Fault, Record, fault_number};
use std::io;
use std::io::{Read, Write};

// One byte more than a datagram may have, so that a longer input is seen to be one.
const MOST: usize = 1401;

// A failed read counts as the end of the input.
fn main(rt: HostRuntime) -> io::Result<()> {
    let mut datagram = ArrayVec::<u8, MOST>::new();
    let mut input = rt.reader().take(MOST as u64);
    let _ = io::copy(&mut input, &mut datagram);
    let _ = io::copy(&mut input.into_inner(), &mut io::sink());
    let mut out = Output::new(io::writer(&rt));
    list(&datagram, &mut out)?;
    out.flush()
}

// The listing of a datagram.
fn list<W: Write>(d: &[u8], out: &mut W) -> io::Result<()> {
    match walked(d) {
        Err(Misframed { fault, at }) => refused(fault, at, out),
        Ok(walk) => lines(d, walk, out),
    }
}

// `records N`, and a line for each record.
fn lines<W: Write>(d: &[u8], walk: Walk, out: &mut W) -> io::Result<()>
    requires { walk_of d.now ≡ Ok walk }
{
    let all = walk.records;
    let records = &all[..walk.count];
    writeln!(out, "records {}", records.len())?;
    for (i, record) in records.iter().enumerate() {
        line(i, *record, out)?;
    }
    Ok(())
}

// `refused R at P`.
fn refused<W: Write>(fault: Fault, at: usize, out: &mut W) -> io::Result<()> {
    writeln!(out, "refused {} at {at}", fault_number(fault))
}

// Index, start, content, protected 0 or 1, number, fragment start, fragment length.
fn line<W: Write>(index: usize, r: Record, out: &mut W) -> io::Result<()>
    requires { r.start + r.head < 2 ^ 64 }
{
    let content = number_of(r.content);
    let protected = u8::from(r.protected);
    let from = r.start + r.head;
    writeln!(
        out,
        "{index} {} {content} {protected} {} {from} {}",
        r.start, r.number, r.size
    )
}
