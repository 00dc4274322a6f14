// 12 and 13 of a hello: the first field at fault, or the first condition that fails with what the hello had.
use digest::mac_named;
use lines::hex::ByteString;
use message::acceptance::Condition;
use message::field::part;
use message::hello::Field;
use std::io;
use std::io::Write;

pub(crate) fn field_name(field: Field) -> &'static str {
    match field {
        Field::Header => "header",
        Field::Size => "size",
        Field::Version => "version",
        Field::Random => "random",
        Field::SessionId => "session",
        Field::ClientKeyIds => "client-ids",
        Field::TrustedKeyIds => "trusted-ids",
        Field::CipherSuites => "suites",
        Field::CompressionMethods => "compressions",
        Field::SequenceNumberMode => "numbering",
        Field::KeyRefresh => "refresh",
        Field::Rest => "end",
    }
}

// ` first C` and the bytes that the hello had there.
pub(crate) fn put_first<W: Write>(
    condition: Condition,
    edition: u8,
    had: &[u8],
    out: &mut W,
) -> io::Result<()> {
    let first = had.first().copied().unwrap_or(0);
    match condition {
        Condition::Version => write!(out, " first version {first}"),
        Condition::SessionId => write!(out, " first session {}", ByteString(had)),
        Condition::CipherSuite => put_pairs(edition, had, out),
        Condition::Compression => write!(out, " first compression {}", ByteString(had)),
        Condition::Numbering => write!(out, " first numbering {first}"),
    }
}

// ` first pair C/M,..`
fn put_pairs<W: Write>(edition: u8, pairs: &[u8], out: &mut W) -> io::Result<()> {
    write!(out, " first pair ")?;
    for (i, pair) in pairs.chunks(2).enumerate() {
        if 0 < i {
            write!(out, ",")?;
        }
        put_pair(edition, pair, out)?;
    }
    Ok(())
}

// A cipher, and the MAC kind behind it.
fn put_pair<W: Write>(edition: u8, pair: &[u8], out: &mut W) -> io::Result<()> {
    match pair {
        [cipher, mac, ..] => {
            write!(out, "{cipher}/")?;
            put_mac(edition, *mac, out)
        }
        [cipher] => write!(out, "{cipher}"),
        [] => Ok(()),
    }
}

// The name in that edition of the list, the number where it is not listed.
fn put_mac<W: Write>(edition: u8, mac: u8, out: &mut W) -> io::Result<()> {
    match mac_named(edition, mac) {
        Ok(named) => out.write_all(named.name()),
        Err(_) => write!(out, "{mac}"),
    }
}

// As many bytes from a place on as there are, at most `size`.
pub(crate) fn part_of(d: &[u8], from: usize, size: usize) -> &[u8] {
    part(part(d, from, d.len()), 0, size)
}
