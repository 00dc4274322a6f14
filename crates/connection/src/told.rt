// What a record changes in a connection (02, "A unit that rebooted").
ghost use Rattle.std.specs.Prelude.{ℕ, ◌+◌, ◌-◌, ◌<◌, ◌≤◌, ◌≡◌, length, take, drop};
ghost use Rattle.connection.specs.Told.{told_record, place_of, placed_by, sent_after, replied_with, is_beside, left_with};
ghost use Rattle.connection.specs.Later.{open_window, started_window};
ghost use Rattle.connection.specs.Asked.{whom_of};
ghost use Rattle.connection.specs.Sent.{sum_of};

use crate::answer::Answer;
use crate::asked::{Whom, asked};
use crate::connection::Connection;
use crate::handshake::{Handshake, Kept, none_started};
use crate::judge::judge;
use crate::sent::SentRecords;
use crate::state::State;
use record::checksum::checksum;
use record::reader::Record;
use record::window::Window;

// The answer to a record, the connection that it leaves, and whether the started handshake, as it is left, has the reply
// that is sent; else the other has it.
#[derive(Clone, Copy)]
pub struct Told {
    pub answer: Answer,
    pub connection: Connection,
    pub beside: bool,
}

// Where the handshake that was asked goes, as it is left.
#[derive(Clone, Copy)]
pub enum Place {
    // it is the open one, or the only one, as before
    Kept,
    // the same, and none is started beside it
    Alone,
    // it is the started one
    Beside,
    // the started one is dropped
    Dropped,
    // nothing changes
    Nowhere,
}

// A record of the datagram d, judged by the handshake that is asked about it.
pub(crate) fn tell(c: Connection, who: Whom, random: [u8; 16], d: &[u8], r: Record) -> Told
    requires { (who ≡ whom_of c d.now r) × ((length random ≡ 16) × ((0 < r.size) × (r.start + r.head + r.size ≤ length d.now))) }
    ensures { result ≡ told_record c random d.now r }
{
    let sent = c.sent;
    let j = judge(asked(c, who), sent, random, d, r);
    let answer = j.answer;
    let h = j.handshake;
    let state = h.state;
    let place = place_of(who, state);
    Told {
        answer,
        connection: placed(c, h, sent_after(sent, h.kept, answer), place),
        beside: is_beside(who),
    }
}

// The connection that a step leaves which leads the handshake h, as it is then, elsewhere. Nothing was sent.
pub(crate) fn moved(c: Connection, who: Whom, h: Handshake) -> Connection
    ensures { result ≡ left_with c h c.sent who }
{
    let sent = c.sent;
    let state = h.state;
    placed(c, h, sent, place_of(who, state))
}

// The window of the open handshake, or the only one, where whoever was asked has a new one.
pub(crate) fn open_window(who: Whom, old: Window, new: Window) -> Window
    ensures { result ≡ open_window who old new }
{
    match who {
        Whom::Only => new,
        Whom::Open => new,
        Whom::Started => old,
        Whom::Newcomer => old,
    }
}

// The window of the started one.
pub(crate) fn started_window(who: Whom, old: Window, new: Window) -> Window
    ensures { result ≡ started_window who old new }
{
    match who {
        Whom::Only => old,
        Whom::Open => old,
        Whom::Started => new,
        Whom::Newcomer => old,
    }
}

fn placed(c: Connection, h: Handshake, sent: SentRecords, place: Place) -> Connection
    ensures { result ≡ placed_by c h sent place }
{
    let mut k = c;
    k.sent = sent;
    match place {
        Place::Kept => {
            k.handshake = h;
            k
        }
        Place::Alone => {
            k.handshake = h;
            k.started = none_started();
            k
        }
        Place::Beside => {
            k.started = h;
            k
        }
        Place::Dropped => {
            k.started = none_started();
            k
        }
        Place::Nowhere => k,
    }
}

fn place_of(who: Whom, state: State) -> Place
    ensures { result ≡ place_of who state }
{
    match who {
        Whom::Only => Place::Kept,
        Whom::Open => match state {
            State::Idle => Place::Alone,
            State::Replied => Place::Alone,
            State::Spec => Place::Alone,
            State::Open => Place::Kept,
            State::Closed => Place::Alone,
            State::Barred => Place::Alone,
        },
        Whom::Started => match state {
            State::Idle => Place::Beside,
            State::Replied => Place::Beside,
            State::Spec => Place::Beside,
            State::Open => Place::Alone,
            State::Closed => Place::Dropped,
            State::Barred => Place::Dropped,
        },
        Whom::Newcomer => match state {
            State::Idle => Place::Nowhere,
            State::Replied => Place::Beside,
            State::Spec => Place::Beside,
            State::Open => Place::Nowhere,
            State::Closed => Place::Nowhere,
            State::Barred => Place::Nowhere,
        },
    }
}

fn is_beside(who: Whom) -> bool
    ensures { result ≡ is_beside who }
{
    matches!(who, Whom::Started | Whom::Newcomer)
}

// The records that we sent, after an answer: a new reply is three more.
fn sent_after(sent: SentRecords, kept: Kept, answer: Answer) -> SentRecords
    ensures { result ≡ sent_after sent kept answer }
{
    match answer {
        Answer::Reply(size) => {
            let reply = kept.reply;
            replied(sent, reply, size)
        }
        Answer::Nothing => sent,
        Answer::Resent(_) => sent,
        Answer::Spec => sent,
        Answer::Open => sent,
        Answer::Again => sent,
        Answer::Data {
            number: _,
            start: _,
            size: _,
        } => sent,
        Answer::Warning(_) => sent,
        Answer::Critical(_) => sent,
        Answer::Fatal(_) => sent,
        Answer::Barred(_) => sent,
        Answer::Refused(_) => sent,
    }
}

// The three records of a reply of this size.
fn replied(sent: SentRecords, reply: [u8; 84], size: usize) -> SentRecords
    requires { length reply ≡ 84 }
    ensures { result ≡ replied_with sent reply size }
{
    let hello = checksum(&reply[..40]);
    let change = checksum(&reply[40..46]);
    sent.with_reply(hello, change, last(reply, size))
}

// The checksum of the last one.
fn last(reply: [u8; 84], size: usize) -> u32
    requires { length reply ≡ 84 }
    ensures { result ≡ sum_of (take (size - 46) (drop 46 reply)) }
{
    if size < 46 {
        return checksum(&reply[46..46]);
    }
    if 84 < size {
        return checksum(&reply[46..]);
    }
    checksum(&reply[46..size])
}
