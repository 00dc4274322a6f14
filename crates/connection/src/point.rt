// One record of a datagram, as receive comes to it (02, "Why was this report dropped?"). Asking changes nothing.
ghost use Rattle.std.specs.Prelude.{ℕ, ◌+◌, ◌<◌, ◌≤◌, ◌≡◌, length, take, Ok};
ghost use Rattle.record.specs.Datagram.{walk_of};
ghost use Rattle.connection.specs.Asked.{asked_of};
ghost use Rattle.connection.specs.Receive.{end_of};
ghost use Rattle.connection.specs.Point.{point_of, point_among, nowhere};

use crate::answer::Answer;
use crate::asked::{Whom, asked, whom_of};
use crate::connection::Connection;
use crate::handshake::Handshake;
use crate::receive::Untaken;
use crate::refusal::Refusal;
use crate::told::tell;
use record::datagram::{Misframed, Walk, walked};
use record::reader::Record;

// How the datagram is taken; and of the record that is asked about the connection that the records before it left, whom it
// is for, and its answer. Where there is no such record, the connection as it was, a blank record and no answer.
#[derive(Clone, Copy)]
pub struct Point {
    pub taken: Result<usize, Untaken>,
    pub connection: Connection,
    pub whom: Whom,
    pub found: Record,
    pub answer: Answer,
}

// The record at an index of a datagram, which is not received. Refusals: 16 for the random, 1 to 5, then 16 for an index past
// the last record. The record lies inside the datagram.
pub fn point_at(c: Connection, datagram: &[u8], random: &[u8], index: usize) -> Point
    ensures exact { result ≡ point_of c datagram.now random.now index }
    ensures inside { result.found.start + result.found.head + result.found.size ≤ length datagram.now }
{
    if random.len() != 16 {
        return nowhere(c, Err(Untaken::Refused(Refusal::Argument)));
    }
    let mut ours = [0u8; 16];
    digest::put(&mut ours, 0, random);
    match walked(datagram) {
        Err(Misframed { fault, at }) => nowhere(
            c,
            Err(Untaken::Misframed(Refusal::Framing(fault), at)),
        ),
        Ok(walk) => among(c, datagram, ours, walk, index),
    }
}

// The handshake that is asked about the record.
pub fn asked_at(p: Point) -> Handshake
    ensures exact { result ≡ asked_of p.connection p.whom }
{
    let whom = p.whom;
    asked(p.connection, whom)
}

// The record at an index of those of a sound datagram.
fn among(c: Connection, d: &[u8], ours: [u8; 16], walk: Walk, index: usize) -> Point
    requires { (length ours ≡ 16) × (walk_of d.now ≡ Ok walk) }
    ensures value { result ≡ point_among c ours d.now (take walk.count walk.records) index }
    ensures size_in_bounds { result.found.start + result.found.head + result.found.size ≤ length d.now }
{
    let count = walk.count;
    if count <= index {
        return nowhere(c, Err(Untaken::Refused(Refusal::Argument)));
    }
    let records = walk.records;
    let left = before(c, d, ours, walk, index);
    let found = records[index];
    let whom = whom_of(left, d, found);
    let told = tell(left, whom, ours, d, found);
    let answer = told.answer;
    Point {
        taken: Ok(count),
        connection: left,
        whom,
        found,
        answer,
    }
}

// The connection that the records before an index leave.
fn before(c: Connection, d: &[u8], ours: [u8; 16], walk: Walk, index: usize) -> Connection
    requires { (length ours ≡ 16) × ((walk_of d.now ≡ Ok walk) × (index < walk.count)) }
    ensures { result ≡ end_of c ours d.now (take index walk.records) }
{
    let records = walk.records;
    let mut left = c;
    for i in 0..index {
        let r = records[i];
        let next = tell(left, whom_of(left, d, r), ours, d, r);
        left = next.connection;
    }
    left
}

// No such record.
fn nowhere(c: Connection, taken: Result<usize, Untaken>) -> Point
    ensures { result ≡ nowhere c taken }
{
    Point {
        taken,
        connection: c,
        whom: Whom::Only,
        found: Record::BLANK,
        answer: Answer::Nothing,
    }
}
