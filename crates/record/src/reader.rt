// One record at the front of a slice (002 9.2.1). The slice is the part of a datagram where the
// record begins, and the answer says how many of its bytes the record takes.
ghost use Rattle.std.specs.Prelude.{◌≡◌, ◌+◌, ◌*◌, ◌^◌, ◌≤◌, ◌<◌, length};
ghost use Rattle.record.specs.Reader.{fault_number, read_of, read_as, head_of, size_of, framed_of};

use crate::header::{Content, Kind, sound};

// What is wrong with the framing of a datagram. `fault_number` gives the number of each.
#[derive(Clone, Copy, PartialEq, Eq, Debug)]
pub enum Fault {
    Size = 1,
    Header = 2,
    Kind = 3,
    Fragment = 4,
    Ninth = 5,
}

// The refusal number of a fault.
impl From<Fault> for u8 {
    ghost from_gives = { λ fault number. number ≡ fault_number fault };

    fn from(fault: Fault) -> u8 {
        fault as u8
    }
}

// The refusal number of a fault, as `u8::from` gives it.
pub fn fault_number(fault: Fault) -> u8
    ensures { result ≡ fault_number fault }
{
    u8::from(fault)
}

// A record, its places counted from its type byte.
#[derive(Clone, Copy)]
pub struct Record {
    // the type byte as on the wire
    pub byte: u8,
    pub content: Content,
    pub protected: bool,
    pub number: u16,
    // where the record begins in its datagram; 0 as it comes from the reader
    pub start: usize,
    // where the fragment begins, counted from the type byte
    pub head: usize,
    // how many bytes the fragment has
    pub size: usize,
    // how many bytes the record has
    pub used: usize,
}

impl Record {
    // What stands in a place with no record.
    pub const BLANK: Record = Record {
        byte: 0,
        content: Content::ChangeCipherSpec,
        protected: false,
        number: 0,
        start: 0,
        head: 0,
        size: 0,
        used: 0,
    };
}

// The record that begins at the front of `part`, or the first fault in the order 3, 2, 4. An empty
// part has not even a type byte: its header passes the end.
#[tactic(auto, unfolding(crate::specs::Reader::read_of))]
pub fn read(part: &[u8]) -> Result<Record, Fault>
    ensures { result ≡ read_of part.now }
{
    match part.first() {
        None => Err(Fault::Header),
        Some(&byte) => read_as(part, byte, Kind::from(byte)),
    }
}

// The record whose type byte says `kind`.
#[tactic(auto, unfolding(crate::specs::Reader::read_as))]
fn read_as(part: &[u8], byte: u8, kind: Kind) -> Result<Record, Fault>
    ensures { result ≡ read_as part.now byte kind }
{
    if !sound(kind) {
        return Err(Fault::Kind);
    }
    let head = head_of(kind);
    if part.len() < head {
        return Err(Fault::Header);
    }
    let size = size_of(part, kind);
    if size == 0 || part.len() - head < size {
        return Err(Fault::Fragment);
    }
    Ok(Record {
        byte,
        content: Content::from(kind.content),
        protected: kind.protected,
        number: u16::from_be_bytes([part[1], part[2]]),
        start: 0,
        head,
        size,
        used: head + size,
    })
}

// How many bytes stand before the fragment: type byte, number, and the length if present.
fn head_of(kind: Kind) -> usize
    ensures value { result ≡ head_of kind }
    ensures lower_bound { (3 ≤ result) × (result ≤ 5) }
{
    if kind.long { 5 } else { 3 }
}

// How many bytes the fragment has: as the length says, or the rest of the part.
fn size_of(part: &[u8], kind: Kind) -> usize
    requires { head_of kind ≤ length part.now }
    ensures { result ≡ size_of part.now kind }
{
    if kind.long {
        u16::from_be_bytes([part[3], part[4]]) as usize
    } else {
        part.len() - 3
    }
}
