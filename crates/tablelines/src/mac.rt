// What an edition of the list of MAC kinds says of a number.
use digest::{Named, Sizes, Unnamed, mac_named};
use lines::number::number;
use lines::words::word;
use std::io;
use std::io::Write;

// mac EDITION NUMBER
pub fn put_asked<W: Write>(line: &[u8], out: &mut W) -> io::Result<()> {
    let edition = number(word(line, 1), 255) as u8;
    let mac = number(word(line, 2), 255) as u8;
    put_mac(mac_named(edition, mac), out)
}

// `mac NAME KEY CODE`, `mac NAME - -` where the sizes are not shown, `mac unlisted`, or `mac refused 16`.
fn put_mac<W: Write>(asked: Result<Named, Unnamed>, out: &mut W) -> io::Result<()> {
    match asked {
        Ok(named) => put_named(named, out),
        Err(Unnamed::Unlisted) => writeln!(out, "mac unlisted"),
        Err(Unnamed::UnknownEdition) => writeln!(out, "mac refused 16"),
    }
}

fn put_named<W: Write>(named: Named, out: &mut W) -> io::Result<()> {
    write!(out, "mac ")?;
    out.write_all(named.name())?;
    match named.sizes() {
        Some(Sizes { key, code }) => writeln!(out, " {key} {code}"),
        None => writeln!(out, " - -"),
    }
}
