// A line of the output: a name, a value as it was published, and a value as it was computed.
use lines::hex::Hex;
use std::fmt::Display;
use std::io;
use std::io::Write;

pub fn line<N: Display + Drop, W: Write>(
    name: N,
    published: &str,
    computed: &[u8],
    out: &mut W,
) -> io::Result<()> {
    writeln!(out, "{name} {published} {}", Hex(computed))
}
