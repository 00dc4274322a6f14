// An explicit parameter set is read, its values are told, and the set is written of them.
use lines::hex::{ByteString, Hex, bytes};
use lines::number::number;
use lines::words::word;
use message::hello::Place;
use message::set::{DhParameters, EcParameters, FieldId, Set};
use message::{field, set, set_writer};
use std::io;
use std::io::Write;

// set SUITE BYTES
pub fn put_asked<W: Write>(line: &[u8], out: &mut W) -> io::Result<()> {
    let suite = number(word(line, 1), 255) as u8;
    let s = bytes(word(line, 2));
    put_set(suite, &s, out)
}

// `set skipped`, `set refused 12`, or the values and `out HEX`.
fn put_set<W: Write>(suite: u8, s: &[u8], out: &mut W) -> io::Result<()> {
    let reading = set::read(suite, s);
    put_reading(reading, s, out)?;
    let mut room = [0u8; 4096];
    let n = set_writer::write(s, reading, &mut room);
    match field::part(&room, 0, n) {
        [] => Ok(()),
        written => writeln!(out, "out {}", Hex(written)),
    }
}

fn put_reading<W: Write>(reading: Option<Set>, s: &[u8], out: &mut W) -> io::Result<()> {
    match reading {
        None => writeln!(out, "set refused 12"),
        Some(Set::Skipped) => writeln!(out, "set skipped"),
        Some(Set::DiffieHellman(d)) => put_dh(d, s, out),
        Some(Set::EllipticCurve(c)) => put_ec(c, s, out),
    }
}

// The bytes at a place, as they are shown.
fn part(s: &[u8], place: Place) -> ByteString<'_> {
    ByteString(field::part(s, place.from, place.end))
}

// `set dh e=E p=HEX g=HEX`
fn put_dh<W: Write>(d: DhParameters, s: &[u8], out: &mut W) -> io::Result<()> {
    writeln!(
        out,
        "set dh e={} p={} g={}",
        d.e,
        part(s, d.p),
        part(s, d.g)
    )
}

// `set ec FIELD a=HEX b=HEX seed=HEX base=HEX order=HEX cofactor=HEX`
fn put_ec<W: Write>(c: EcParameters, s: &[u8], out: &mut W) -> io::Result<()> {
    write!(out, "set ec ")?;
    put_field(c.field, s, out)?;
    write!(
        out,
        " a={} b={} seed={}",
        part(s, c.a),
        part(s, c.b),
        part(s, c.seed)
    )?;
    writeln!(
        out,
        " base={} order={} cofactor={}",
        part(s, c.base),
        part(s, c.order),
        part(s, c.cofactor)
    )
}

// `prime p=HEX`, or `two m=M` and the basis.
fn put_field<W: Write>(field: FieldId, s: &[u8], out: &mut W) -> io::Result<()> {
    match field {
        FieldId::Prime(p) => write!(out, "prime p={}", part(s, p)),
        FieldId::Onb(m) => write!(out, "two m={m} onb"),
        FieldId::Trinomial(m, k) => write!(out, "two m={m} trinomial {k}"),
        FieldId::Pentanomial(m, k1, k2, k3) => {
            write!(out, "two m={m} pentanomial {k1} {k2} {k3}")
        }
        FieldId::Polynomial(m, p) => write!(out, "two m={m} polynomial {}", part(s, p)),
    }
}
