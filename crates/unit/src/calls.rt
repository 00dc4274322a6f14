// The calls that take no datagram and send none: fresh, close, start again (02, P7; 01).
ghost use Rattle.std.specs.Prelude.{◌≡◌, length};
ghost use Rattle.unit.specs.Calls.{fresh_of, closed_of, started_of, leaving};
ghost use Rattle.unit.specs.Unit.{new_unit};
ghost use Rattle.unit.specs.declared.state.State.TheVariants.{Idle};

use crate::state::State;
use crate::unit::{Unit, blank, made};
use connection::refusal::Refusal;

// The outcome of a call, and the unit that it leaves.
#[derive(Clone, Copy)]
pub struct Called {
    pub outcome: Result<(), Refusal>,
    pub unit: Unit,
}

// A fresh unit of a planted session, an identifier of 8 bytes and a secret of 20, whose window has a width from 32 to 64; else
// 16.
pub fn fresh(id: &[u8], secret: &[u8], width: u32) -> Called
    ensures { result ≡ fresh_of id.now secret.now width }
{
    if id.len() != 8 {
        return leave(Err(Refusal::Argument), blank());
    }
    if secret.len() != 20 {
        return leave(Err(Refusal::Argument), blank());
    }
    if width < 32 {
        return leave(Err(Refusal::Argument), blank());
    }
    if 64 < width {
        return leave(Err(Refusal::Argument), blank());
    }
    leave(Ok(()), planted(id, secret, width as u8))
}

// Close leads anywhere but Barred to Closed.
pub fn close(u: Unit) -> Called
    ensures { result ≡ closed_of u }
{
    let state = u.state;
    match state {
        State::Barred => leave(Err(Refusal::Ended), u),
        State::Idle => leave(Ok(()), u.with_state(State::Closed)),
        State::Sent => leave(Ok(()), u.with_state(State::Closed)),
        State::Replied => leave(Ok(()), u.with_state(State::Closed)),
        State::Spec => leave(Ok(()), u.with_state(State::Closed)),
        State::Opening => leave(Ok(()), u.with_state(State::Closed)),
        State::Open => leave(Ok(()), u.with_state(State::Closed)),
        State::Closed => leave(Ok(()), u.with_state(State::Closed)),
    }
}

// Start again leads from Closed to Idle.
pub fn start(u: Unit) -> Called
    ensures { result ≡ started_of u }
{
    let state = u.state;
    match state {
        State::Barred => leave(Err(Refusal::Ended), u),
        State::Idle => leave(Err(Refusal::NotAllowed), u),
        State::Sent => leave(Err(Refusal::NotAllowed), u),
        State::Replied => leave(Err(Refusal::NotAllowed), u),
        State::Spec => leave(Err(Refusal::NotAllowed), u),
        State::Opening => leave(Err(Refusal::NotAllowed), u),
        State::Open => leave(Err(Refusal::NotAllowed), u),
        State::Closed => leave(Ok(()), u.reopened()),
    }
}

fn leave(outcome: Result<(), Refusal>, unit: Unit) -> Called
    ensures { result ≡ leaving outcome unit }
{
    Called { outcome, unit }
}

// The unit of an identifier and a secret.
fn planted(id: &[u8], secret: &[u8], width: u8) -> Unit
    requires { (length id.now ≡ 8) × (length secret.now ≡ 20) }
    ensures { result ≡ new_unit id.now secret.now width Idle }
{
    let mut i = [0u8; 8];
    digest::put(&mut i, 0, id);
    let mut s = [0u8; 20];
    digest::put(&mut s, 0, secret);
    made(i, s, width, State::Idle)
}
