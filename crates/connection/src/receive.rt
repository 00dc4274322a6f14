// Receive a datagram (01): its framing is judged as a whole, then there is one answer for each record.
ghost use Rattle.std.specs.Prelude.{ℕ, ◌+◌, ◌≤◌, ◌<◌, ◌≡◌, length, take, Ok};
ghost use Rattle.connection.specs.Receive.{received_of, output_of, taken_number, taken_at, whole_of, run_of, first_reply, sent_of_kept};
ghost use Rattle.digest.specs.Bytes.{laid_over};
ghost use Rattle.connection.specs.Tally.{counted_of};
ghost use Rattle.connection.specs.Told.{kept_by};
ghost use Rattle.connection.specs.Judge.{kind_in};
ghost use Rattle.connection.specs.Later.{is_hello, record_at, begun_of, begun_sent};
ghost use Rattle.record.specs.Datagram.{walk_of};

use crate::answer::{Answer, Slot, reply_size};
use crate::asked::{asked, whom_of};
use crate::connection::Connection;
use crate::handshake::Kept;
use crate::judge::step_by;
use crate::refusal::{Refusal, number};
use crate::state::{Kind, kind_of};
use crate::step::{led, stays};
use crate::tally::Tally;
use crate::told::{moved, open_window, started_window, tell};
use record::datagram::{Misframed, Walk, walked};
use record::reader::{Record, read};

// Why a datagram is refused as a whole: a framing fault with the offset of the record at fault.
#[derive(Clone, Copy)]
pub enum Untaken {
    Refused(Refusal),
    Misframed(Refusal, usize),
}

#[derive(Clone, Copy)]
pub struct Received {
    // so many records, each with its answer
    pub taken: Result<usize, Untaken>,
    // an answer for each record, and Nothing behind them
    pub answers: [Slot; 8],
    // how many bytes stand at the front of the output
    pub written: usize,
    pub connection: Connection,
}

// Takes a datagram, our random for a new reply, and room of at least 128 bytes for it. Refusals of the whole: 16, 6, 1 to 5.
pub fn receive(c: Connection, datagram: &[u8], random: &[u8], out: &mut [u8]) -> Received
    ensures exact { result ≡ received_of c datagram.now random.now (length out.old) }
    ensures bytes { out.new ≡ output_of c datagram.now random.now out.old }
{
    if random.len() != 16 {
        return whole(c, Err(Untaken::Refused(Refusal::Argument)));
    }
    if out.len() < 128 {
        return whole(c, Err(Untaken::Refused(Refusal::Room)));
    }
    let mut ours = [0u8; 16];
    digest::put(&mut ours, 0, random);
    match walked(datagram) {
        Err(Misframed { fault, at }) => whole(
            c,
            Err(Untaken::Misframed(Refusal::Framing(fault), at)),
        ),
        Ok(walk) => each(c, datagram, ours, walk, out),
    }
}

// The same with the unit's tally lent, which is brought up to date where it stands. A datagram refused as a whole leaves it
// as it was.
pub fn receive_counted(
    c: Connection,
    datagram: &[u8],
    random: &[u8],
    out: &mut [u8],
    tally: &mut Tally,
) -> Received
    ensures exact { result ≡ received_of c datagram.now random.now (length out.old) }
    ensures bytes { out.new ≡ output_of c datagram.now random.now out.old }
    ensures count { tally.exit.now ≡ counted_of tally.entry.now (received_of c datagram.now random.now (length out.old)).answers }
{
    let received = receive(c, datagram, random, out);
    *tally = counted(*tally, received);
    received
}

// The answers of a receive counted.
pub fn counted(tally: Tally, received: Received) -> Tally
    ensures { result ≡ counted_of tally received.answers }
{
    let answers = received.answers;
    tally.with_answers(answers)
}

// The number of the refusal of a whole datagram; 0 where it was taken, as 01 and C have it.
pub fn refused(taken: Result<usize, Untaken>) -> u8
    ensures { result ≡ taken_number taken }
{
    match taken {
        Ok(_) => 0,
        Err(Untaken::Refused(refusal)) => number(refusal),
        Err(Untaken::Misframed(refusal, _)) => number(refusal),
    }
}

// The offset of the record at fault, of 1 to 5; else 0, as C has it.
pub fn refused_at(taken: Result<usize, Untaken>) -> usize
    ensures { result ≡ taken_at taken }
{
    match taken {
        Ok(_) => 0,
        Err(Untaken::Refused(_)) => 0,
        Err(Untaken::Misframed(_, at)) => at,
    }
}

// The datagram refused as a whole: nothing changes.
fn whole(c: Connection, taken: Result<usize, Untaken>) -> Received
    ensures { result ≡ whole_of c taken }
{
    let nothing = Slot {
        answer: Answer::Nothing,
    };
    Received {
        taken,
        answers: [nothing; 8],
        written: 0,
        connection: c,
    }
}

// A datagram begun: the answer to its first record, how many bytes were written, and the connection after it, where that is a
// ClientHello; else nothing yet. So many records are done, and the next begins at `at`.
#[derive(Clone, Copy)]
pub struct Begun {
    pub answer: Answer,
    pub written: usize,
    pub connection: Connection,
    pub done: usize,
    pub at: usize,
}

// A reply is the answer to the first record alone, and its bytes are written as that record left them.
fn begin(c: Connection, d: &[u8], ours: [u8; 16], r: Record, out: &mut [u8]) -> Begun
    requires { (length ours ≡ 16) × ((0 < r.size) × ((r.start + r.head + r.size ≤ length d.now) × (128 ≤ length out.old))) }
    ensures value { result ≡ begun_of c ours d.now r }
    ensures out_after { out.new ≡ laid_over out.old 0 (begun_sent c ours d.now r) }
{
    if !is_hello(d, r) {
        return Begun {
            answer: Answer::Nothing,
            written: 0,
            connection: c,
            done: 0,
            at: 0,
        };
    }
    let who = whom_of(c, d, r);
    let first = tell(c, who, ours, d, r);
    let answer = first.answer;
    let left = first.connection;
    let written = put_reply(kept_by(first.beside, left), answer, out);
    Begun {
        answer,
        written,
        connection: left,
        done: 1,
        at: r.used,
    }
}

// Whether a record is a ClientHello.
fn is_hello(d: &[u8], r: Record) -> bool
    requires { (0 < r.size) × (r.start + r.head + r.size ≤ length d.now) }
    ensures { result ≡ is_hello (kind_in d.now r) }
{
    let at = r.start + r.head;
    let fragment = &d[at..at + r.size];
    let content = r.content;
    hello_kind(kind_of(content, r.protected, fragment[0]))
}

fn hello_kind(kind: Kind) -> bool
    ensures { result ≡ is_hello kind }
{
    matches!(kind, Kind::ClearHello)
}

// The record that stands at a place of the datagram, read again.
fn record_at(d: &[u8], at: usize) -> Record
    requires { at ≤ length d.now }
    ensures { result ≡ record_at d.now at }
{
    match read(&d[at..]) {
        Err(_) => Record::BLANK,
        Ok(found) => Record { start: at, ..found },
    }
}

// The records one after the other, each in the state that those before it left. Where the state stays, the window is stored in its
// place.
fn each(c: Connection, d: &[u8], ours: [u8; 16], walk: Walk, out: &mut [u8]) -> Received
    requires { (length ours ≡ 16) × ((walk_of d.now ≡ Ok walk) × (128 ≤ length out.old)) }
    ensures value { result ≡ run_of c ours d.now (take walk.count walk.records) }
    ensures out_after { out.new ≡ laid_over out.old 0 (first_reply c ours d.now (take walk.count walk.records)) }
{
    let count = walk.count;
    let begun = begin(c, d, ours, record_at(d, 0), out);
    let written = begun.written;
    let answer = begun.answer;
    let nothing = Slot {
        answer: Answer::Nothing,
    };
    let mut answers = [nothing; 8];
    answers[0] = Slot { answer };
    let mut left = begun.connection;
    let mut at = begun.at;
    for i in begun.done..count {
        let r = record_at(d, at);
        let who = whom_of(left, d, r);
        let h = asked(left, who);
        let step = step_by(h, left.sent, d, r);
        let answer = step.answer;
        answers[i] = Slot { answer };
        let next = step.next;
        let window = step.window;
        if stays(next) {
            let open = left.handshake;
            let mine = open.protection;
            let first = open_window(who, mine.window, window);
            let beside = left.started;
            let other = beside.protection;
            let second = started_window(who, other.window, window);
            left.handshake.protection.window.width = first.width;
            left.handshake.protection.window.highest = first.highest;
            left.handshake.protection.window.marks = first.marks;
            left.started.protection.window.width = second.width;
            left.started.protection.window.highest = second.highest;
            left.started.protection.window.marks = second.marks;
        } else {
            left = moved(left, who, led(h, window, next));
        }
        at += r.used;
    }
    Received {
        taken: Ok(count),
        answers,
        written,
        connection: left,
    }
}

// The kept reply of whoever answered.
fn kept_by(beside: bool, c: Connection) -> Kept
    ensures { result ≡ kept_by beside c }
{
    if beside {
        let started = c.started;
        return started.kept;
    }
    let h = c.handshake;
    h.kept
}

// Writes what an answer sends of the kept reply, and answers how many bytes that is.
fn put_reply(kept: Kept, answer: Answer, out: &mut [u8]) -> usize
    requires { 128 ≤ length out.old }
    ensures value { result ≡ length (sent_of_kept kept answer) }
    ensures out_after { out.new ≡ laid_over out.old 0 (sent_of_kept kept answer) }
{
    let reply = kept.reply;
    let size = reply_size(answer);
    if 84 < size {
        digest::put(out, 0, &reply);
        return 84;
    }
    digest::put(out, 0, &reply[..size]);
    size
}
