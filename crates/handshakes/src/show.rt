// A line of the output: the MAC kind, the name of a value, and the value in hexadecimal.
use digest::Mac;
use lines::hex::Hex;
use std::io;
use std::io::Write;

pub fn line<W: Write>(mac: Mac, name: &str, value: &[u8], out: &mut W) -> io::Result<()> {
    writeln!(out, "{}.{name} {}", kind(mac), Hex(value))
}

// The line of a checksum, the four bytes as the number that they spell.
pub fn checksum_line<W: Write>(mac: Mac, name: &str, sum: u32, out: &mut W) -> io::Result<()> {
    writeln!(out, "{}.{name} {sum:08x}", kind(mac))
}

fn kind(mac: Mac) -> &'static str {
    match mac {
        Mac::Sha80 => "sha80",
        Mac::Sha => "sha",
    }
}
