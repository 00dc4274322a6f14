// The three datagrams of a handshake (01, Handshake): the hello, the reply and the unit's flight; and the last record
// that the shore sent, with its checksum (002 10.2).
ghost use Rattle.std.specs.Prelude.{◌≤◌, length};

use crate::protection::keys;
use crate::show::{checksum_line, line};
use digest::{Key, Mac};
use message::acceptance::Plan;
use message::{change, field};
use record::header::Content;
use record::keys::Sense;
use record::{checksum, code, written};
use std::io;
use std::io::Write;

// The last record of the reply: the shore's Finished as on the wire.
pub fn last_record<W: Write>(plan: Plan, ours: &[u8], out: &mut W) -> io::Result<()> {
    let mac = plan.mac;
    let key = keys(plan).key(Sense::FromShore, 0);
    let mut room = [0u8; 64];
    let size = code::write_protected(key, mac, false, Content::Handshake, 0, ours, &mut room);
    let record = field::part(&room, 0, size);
    line(mac, "last-record", record, out)?;
    checksum_line(mac, "checksum", checksum::checksum(record), out)
}

pub fn hello_datagram<W: Write>(mac: Mac, client: &[u8], out: &mut W) -> io::Result<()> {
    let mut room = [0u8; 64];
    let size = written::write_clear(false, Content::Handshake, 0, client, &mut room);
    line(mac, "hello-datagram", field::part(&room, 0, size), out)
}

pub fn reply<W: Write>(plan: Plan, server: &[u8], ours: &[u8], out: &mut W) -> io::Result<()> {
    let mut room = [0u8; 128];
    let key = keys(plan).key(Sense::FromShore, 0);
    let size = replied(plan.mac, key, server, ours, &mut room);
    line(plan.mac, "reply", field::part(&room, 0, size), out)
}

pub fn flight<W: Write>(plan: Plan, theirs: &[u8], out: &mut W) -> io::Result<()> {
    let mut room = [0u8; 128];
    let key = keys(plan).key(Sense::FromUnit, 0);
    let size = changed(plan.mac, key, theirs, &mut room);
    line(plan.mac, "flight", field::part(&room, 0, size), out)
}

// The reply: ServerHello, change cipher spec and the shore's Finished. Answers how many bytes it wrote.
fn replied(mac: Mac, key: Key, server: &[u8], ours: &[u8], out: &mut [u8]) -> usize
    ensures { result ≤ length out.old }
{
    let first = written::write_clear(true, Content::Handshake, 0, server, out);
    let rest = changed(mac, key, ours, &mut out[first..]);
    first + rest
}

// The end of the reply, and the flight: change cipher spec, and a Finished that is the first record under protection.
fn changed(mac: Mac, key: Key, finished: &[u8], out: &mut [u8]) -> usize
    ensures { result ≤ length out.old }
{
    let change = change::change();
    let first = written::write_clear(true, Content::ChangeCipherSpec, 1, &change, out);
    let rest = code::write_protected(
        key,
        mac,
        false,
        Content::Handshake,
        0,
        finished,
        &mut out[first..],
    );
    first + rest
}
