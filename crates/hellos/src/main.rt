// Hears each of the messages on standard input, a 2-byte length before each, against the identifier 1 to 8, and writes
// a line for each: the refusal number with the field or the condition, or 0 with MAC number and refresh.
#![tactic(auto)]

use arrayvec::ArrayVec;
use lines::output::Output;
use message::acceptance::{Condition, Plan, Unheard};
use message::hello::Field;
use message::{acceptance, field};
use std::io;
use std::io::{Read, Write};

// The most bytes that are read.
const INPUT: usize = 65536;

const PLANTED: [u8; 8] = [1, 2, 3, 4, 5, 6, 7, 8];

// A failed read counts as the end of the input.
fn main(rt: HostRuntime) -> io::Result<()> {
    let mut input = ArrayVec::<u8, INPUT>::new();
    let _ = io::copy(&mut rt.reader().take(INPUT as u64), &mut input);
    let mut out = Output::new(io::writer(&rt));
    hear_all(&input, &mut out)?;
    out.flush()
}

// Each message, from the front; what is cut at the end is left.
fn hear_all<W: Write>(s: &[u8], out: &mut W) -> io::Result<()> {
    let mut rest = s;
    while let Some(end) = field::long_end(rest, 0) {
        show(acceptance::hear(field::part(rest, 2, end), &PLANTED), out)?;
        rest = &rest[end..];
    }
    Ok(())
}

fn show<W: Write>(heard: Result<Plan, Unheard>, out: &mut W) -> io::Result<()> {
    match heard {
        Ok(plan) => {
            let mac = plan.mac;
            writeln!(out, "0 {} {}", mac.number(), plan.refresh)
        }
        Err(Unheard::Unacceptable(condition)) => writeln!(
            out,
            "13 {} 0",
            condition_number(condition)
        ),
        Err(Unheard::Malformed(fault)) => writeln!(out, "12 {} 0", field_number(fault)),
    }
}

fn condition_number(condition: Condition) -> u8 {
    match condition {
        Condition::Version => 1,
        Condition::SessionId => 2,
        Condition::CipherSuite => 3,
        Condition::Compression => 4,
        Condition::Numbering => 5,
    }
}

fn field_number(field: Field) -> u8 {
    match field {
        Field::Header => 1,
        Field::Size => 2,
        Field::Version => 3,
        Field::Random => 4,
        Field::SessionId => 5,
        Field::ClientKeyIds => 6,
        Field::TrustedKeyIds => 7,
        Field::CipherSuites => 8,
        Field::CompressionMethods => 9,
        Field::SequenceNumberMode => 10,
        Field::KeyRefresh => 11,
        Field::Rest => 12,
    }
}
