// The calls that take no datagram and send none: fresh, close, start again (01).
ghost use Rattle.std.specs.Prelude.{◌≡◌, length};
ghost use Rattle.connection.specs.Calls.{fresh_of, closed_of, started_of, leaving, session_of, outcome_number};
ghost use Rattle.connection.specs.Connection.{ended};

use crate::connection::{Connection, alone};
use crate::handshake::{Session, blank, made, none_started};
use crate::refusal::{Refusal, number};
use crate::state::State;

// The outcome of a call, and the connection that it leaves.
#[derive(Clone, Copy)]
pub struct Called {
    pub outcome: Result<(), Refusal>,
    pub connection: Connection,
}

// A fresh connection of a planted session, an identifier of 8 bytes and a secret of 20, whose window has a width from
// 32 to 64; else 16.
pub fn fresh(id: &[u8], secret: &[u8], width: u32) -> Called
    ensures { result ≡ fresh_of id.now secret.now width }
{
    if id.len() != 8 {
        return leave(Err(Refusal::Argument), alone(blank()));
    }
    if secret.len() != 20 {
        return leave(Err(Refusal::Argument), alone(blank()));
    }
    if width < 32 {
        return leave(Err(Refusal::Argument), alone(blank()));
    }
    if 64 < width {
        return leave(Err(Refusal::Argument), alone(blank()));
    }
    leave(
        Ok(()),
        alone(made(planted(id, secret), width as u8, State::Idle)),
    )
}

// Close leads anywhere but Barred to Closed.
pub fn close(c: Connection) -> Called
    ensures { result ≡ closed_of c }
{
    let h = c.handshake;
    let state = h.state;
    match state {
        State::Barred => leave(Err(Refusal::Ended), c),
        State::Idle => leave(Ok(()), ended(c)),
        State::Replied => leave(Ok(()), ended(c)),
        State::Spec => leave(Ok(()), ended(c)),
        State::Open => leave(Ok(()), ended(c)),
        State::Closed => leave(Ok(()), ended(c)),
    }
}

// Start again leads from Closed to Idle.
pub fn start(c: Connection) -> Called
    ensures { result ≡ started_of c }
{
    let h = c.handshake;
    let state = h.state;
    match state {
        State::Barred => leave(Err(Refusal::Ended), c),
        State::Idle => leave(Err(Refusal::NotAllowed), c),
        State::Replied => leave(Err(Refusal::NotAllowed), c),
        State::Spec => leave(Err(Refusal::NotAllowed), c),
        State::Open => leave(Err(Refusal::NotAllowed), c),
        State::Closed => leave(Ok(()), alone(h.reopened())),
    }
}

// The number of the refusal that an outcome is; 0 where the call was done, as 01 and C have it.
pub fn refused(outcome: Result<(), Refusal>) -> u8
    ensures { result ≡ outcome_number outcome }
{
    match outcome {
        Ok(()) => 0,
        Err(refusal) => number(refusal),
    }
}

fn leave(outcome: Result<(), Refusal>, connection: Connection) -> Called
    ensures { result ≡ leaving outcome connection }
{
    Called {
        outcome,
        connection,
    }
}

// Closed, and no handshake beside it.
fn ended(c: Connection) -> Connection
    ensures { result ≡ ended c }
{
    let h = c.handshake;
    let mut k = c;
    k.handshake = h.with_state(State::Closed);
    k.started = none_started();
    k
}

// The session of an identifier and a secret.
fn planted(id: &[u8], secret: &[u8]) -> Session
    requires { (length id.now ≡ 8) × (length secret.now ≡ 20) }
    ensures { result ≡ session_of id.now secret.now }
{
    let mut i = [0u8; 8];
    digest::put(&mut i, 0, id);
    let mut s = [0u8; 20];
    digest::put(&mut s, 0, secret);
    Session { id: i, secret: s }
}
