// Which handshake of a connection is asked about a record (02, "A unit that rebooted").
ghost use Rattle.std.specs.Prelude.{ℕ, ◌+◌, ◌<◌, ◌≤◌, ◌≡◌, length};
ghost use Rattle.digest.specs.Pick.{pick};
ghost use Rattle.connection.specs.Clear.{is_kept};
ghost use Rattle.connection.specs.Asked.{whom_of, open_to, greeting_to, finished_of, under_way, is_spec, asked_of};

use crate::clear::same_hello;
use crate::connection::Connection;
use crate::handshake::{Handshake, Kept, newcomer};
use crate::state::{Kind, State, kind_of};
use record::code::genuine;
use record::keys::Sense;
use record::reader::Record;

#[derive(Clone, Copy)]
pub enum Whom {
    // the only handshake: none is open
    Only,
    // the open one
    Open,
    // the one that is started beside it
    Started,
    // one in Idle, which may become the started one
    Newcomer,
}

// Whom to ask about a record of the datagram d.
pub(crate) fn whom_of(c: Connection, d: &[u8], r: Record) -> Whom
    requires { (0 < r.size) × (r.start + r.head + r.size ≤ length d.now) }
    ensures { result ≡ whom_of c d.now r }
{
    let h = c.handshake;
    let state = h.state;
    match state {
        State::Idle => Whom::Only,
        State::Replied => Whom::Only,
        State::Spec => Whom::Only,
        State::Open => {
            let at = r.start + r.head;
            let fragment = &d[at..at + r.size];
            let content = r.content;
            in_open(c, r, fragment, kind_of(content, r.protected, fragment[0]))
        }
        State::Closed => Whom::Only,
        State::Barred => Whom::Only,
    }
}

// The Open rows. (A match: each row has arguments of its own.)
fn in_open(c: Connection, r: Record, fragment: &[u8], kind: Kind) -> Whom
    ensures { result ≡ open_to c r fragment.now kind }
{
    let started = c.started;
    let state = started.state;
    match kind {
        Kind::ClearHello => {
            if r.start == 0 {
                return greeting(c, fragment);
            }
            beside(state)
        }
        Kind::ClearChange => beside(state),
        Kind::ClearAlert => beside(state),
        Kind::OtherClear => beside(state),
        Kind::ProtectedChange => Whom::Open,
        Kind::ProtectedAlert => Whom::Open,
        Kind::ProtectedHandshake => finished(started, r, fragment),
        Kind::ProtectedData => Whom::Open,
    }
}

// The started one; where there is none, a newcomer.
fn beside(state: State) -> Whom
    ensures { result ≡ pick (under_way state) Whom.Started Whom.Newcomer }
{
    if under_way(state) {
        return Whom::Started;
    }
    Whom::Newcomer
}

// A ClientHello first in its datagram: the started one's own, the open one's own, or another.
fn greeting(c: Connection, m: &[u8]) -> Whom
    ensures { result ≡ greeting_to c m.now }
{
    let h = c.handshake;
    let started = c.started;
    let state = started.state;
    if !under_way(state) {
        return hello(h.kept, m);
    }
    if same_hello(started.kept, m) {
        return Whom::Started;
    }
    hello(h.kept, m)
}

fn hello(kept: Kept, m: &[u8]) -> Whom
    ensures { result ≡ pick (is_kept kept m.now) Whom.Open Whom.Newcomer }
{
    if same_hello(kept, m) {
        return Whom::Open;
    }
    Whom::Newcomer
}

// A protected handshake record: the started one's in Spec if its code is right there, else the open one's.
fn finished(started: Handshake, r: Record, fragment: &[u8]) -> Whom
    ensures { result ≡ finished_of started r fragment.now }
{
    let state = started.state;
    if !is_spec(state) {
        return Whom::Open;
    }
    let protection = started.protection;
    let keys = protection.keys;
    let mac = keys.mac;
    let key = keys.key(Sense::FromUnit, r.number);
    if genuine(key, mac, r.number, r.byte, fragment) {
        return Whom::Started;
    }
    Whom::Open
}

// Replied or Spec.
pub fn under_way(state: State) -> bool
    ensures { result ≡ under_way state }
{
    matches!(state, State::Replied | State::Spec)
}

fn is_spec(state: State) -> bool
    ensures { result ≡ is_spec state }
{
    matches!(state, State::Spec)
}

// The handshake that is asked.
pub(crate) fn asked(c: Connection, whom: Whom) -> Handshake
    ensures { result ≡ asked_of c whom }
{
    match whom {
        Whom::Only => c.handshake,
        Whom::Open => c.handshake,
        Whom::Started => c.started,
        Whom::Newcomer => newcomer(c.handshake),
    }
}
