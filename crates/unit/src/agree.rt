// A ServerHello: where it answers the offer, both Finished and the flight follow from it (002 10.5.1.3, 10.5.9).
ghost use Rattle.std.specs.Prelude.{ℕ, ◌≤◌, ◌≡◌, length};
ghost use Rattle.unit.specs.Agree.{agreed_by, agreed_with, server_random, message_in, flight_with, judged};

use crate::answer::Answer;
use crate::state::State;
use crate::unit::Unit;
use connection::refusal::Refusal;
use message::acceptance::Plan;
use message::agreement::Disagreed;
use message::change::change;
use message::offer::Offer;
use message::{agreement, finished, offer};
use record::header::Content;
use record::keys::{Keys, Sense};
use record::protection::Protection;
use record::written::write_clear;

// The answer to a record, and the unit that it leaves.
#[derive(Clone, Copy)]
pub struct Judged {
    pub answer: Answer,
    pub unit: Unit,
}

// A message at the front of its array.
#[derive(Clone, Copy)]
pub struct Message {
    pub bytes: [u8; 42],
    pub size: usize,
}

// A ServerHello: it starts the reading of the reply anew where it answers the offer.
pub(crate) fn agree(u: Unit, m: &[u8]) -> Judged
    ensures { result ≡ agreed_by u m.now }
{
    let id = u.id;
    let offer = u.offer;
    match agreement::agree(m, &id, offer) {
        Err(Disagreed::Malformed) => judge_as(Answer::Refused(Refusal::Malformed), u),
        Err(Disagreed::Unacceptable(_)) => judge_as(Answer::Refused(Refusal::Unacceptable), u),
        Ok(plan) => judge_as(Answer::Hello, agreed(u, m, plan)),
    }
}

// The unit after the ServerHello m. The window stays as it was.
fn agreed(u: Unit, m: &[u8], plan: Plan) -> Unit
    requires { 20 ≤ length m.now }
    ensures { result ≡ agreed_with u m.now plan }
{
    let id = u.id;
    let offer = u.offer;
    let sent = u.sent;
    let protection = u.protection;
    let old = protection.keys;
    let secret = old.secret;
    let client = old.client;
    let window = protection.window;
    let mac = plan.mac;
    let said = message_in(id, client, offer);
    let bytes = said.bytes;
    let size = said.size;
    let expected = finished::server_verify(&secret, &bytes[..size], m);
    let theirs = finished::message(expected);
    let ours = finished::message(finished::client_verify(&secret, &bytes[..size], m, &theirs));
    let left = Protection {
        keys: Keys {
            secret,
            server: server_random(m),
            client,
            mac,
            refresh: plan.refresh,
        },
        window,
        protected: 0,
        clear: protection.clear,
    };
    Unit {
        state: State::Replied,
        id,
        offer,
        expected,
        flight: flown(left, ours),
        sent,
        protection: left,
    }
}

// The random of a ServerHello: behind the type and the length of the message and the version.
fn server_random(m: &[u8]) -> [u8; 16]
    requires { 20 ≤ length m.now }
    ensures { result ≡ server_random m.now }
{
    let mut d = [0u8; 16];
    digest::put(&mut d, 0, &m[4..20]);
    d
}

// Our hello, as a whole message.
pub(crate) fn message_in(id: [u8; 8], random: [u8; 16], offer: Offer) -> Message
    requires { (length id ≡ 8) × (length random ≡ 16) }
    ensures value { result ≡ message_in id random offer }
    ensures size_bound { result.size ≤ 42 }
{
    let mut bytes = [0u8; 42];
    let size = offer::write(&random, &id, offer, &mut bytes);
    Message { bytes, size }
}

// Change cipher spec and our Finished, zeros behind them.
fn flown(protection: Protection, ours: [u8; 15]) -> [u8; 44]
    requires { (length ours ≡ 15) × (protection.protected ≡ 0) }
    ensures { result ≡ flight_with protection.keys ours }
{
    let one = change();
    let mut first = [0u8; 6];
    write_clear(true, Content::ChangeCipherSpec, 1, &one, &mut first);
    let mut second = [0u8; 38];
    protection.write(Sense::FromUnit, Content::Handshake, &ours, &mut second);
    let mut flight = [0u8; 44];
    digest::put(&mut flight, 0, &first);
    digest::put(&mut flight, 6, &second);
    flight
}

pub(crate) fn judge_as(answer: Answer, unit: Unit) -> Judged
    ensures { result ≡ judged answer unit }
{
    Judged { answer, unit }
}
