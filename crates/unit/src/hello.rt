// The hello, and what is said again (02, P7: "a call gives the same datagram again until the first data or the warning on a
// repeated Finished arrives").
ghost use Rattle.std.specs.Prelude.{ℕ, ◌≡◌, length};
ghost use Rattle.record.specs.Written.{count_of, written_of};
ghost use Rattle.unit.specs.Unit.{flight_of};
ghost use Rattle.unit.specs.Hello.{hello_sent, hello_output, greeted_with, hello_datagram, may_hello, again_sent, again_output, said_again};

use crate::agree::message_in;
use crate::send::{Sent, done, refused};
use crate::state::State;
use crate::unit::Unit;
use connection::refusal::Refusal;
use message::offer;
use message::offer::Offer;
use record::checksum::checksum;
use record::header::Content;
use record::written::write_clear;

// Writes the ClientHello with this random, these MAC kinds in their order (one or both of 2 and 3) and a key refresh to 255, in
// Idle. Refusals: 16, 7, 8, 6.
pub fn hello(u: Unit, random: &[u8], macs: &[u8], refresh: u32, out: &mut [u8]) -> Sent
    ensures exact { result ≡ hello_sent u random.now macs.now refresh (length out.old) }
    ensures bytes { out.new ≡ hello_output u random.now macs.now refresh out.old }
{
    if random.len() != 16 {
        return refused(u, Refusal::Argument);
    }
    if 255 < refresh {
        return refused(u, Refusal::Argument);
    }
    let Some(kinds) = offer::kinds_of(macs) else {
        return refused(u, Refusal::Argument);
    };
    let state = u.state;
    match may_hello(state) {
        Err(refusal) => refused(u, refusal),
        Ok(()) => {
            let mut ours = [0u8; 16];
            digest::put(&mut ours, 0, random);
            let offer = Offer {
                kinds,
                refresh: refresh as u8,
            };
            greet(u, ours, offer, out)
        }
    }
}

// Gives the hello's datagram again until the shore's Finished is verified, then the flight's until data or the warning on a
// repeated Finished comes. Nothing changes. Refusals: 7, 8, 6.
pub fn again(u: Unit, out: &mut [u8]) -> Sent
    ensures exact { result ≡ again_sent u (length out.old) }
    ensures bytes { out.new ≡ again_output u out.old }
{
    let state = u.state;
    match state {
        State::Idle => refused(u, Refusal::NotAllowed),
        State::Sent => again_hello(u, out),
        State::Replied => again_hello(u, out),
        State::Spec => again_hello(u, out),
        State::Opening => again_flight(u, out),
        State::Open => refused(u, Refusal::NotAllowed),
        State::Closed => refused(u, Refusal::Ended),
        State::Barred => refused(u, Refusal::Ended),
    }
}

// A hello is written in Idle.
fn may_hello(state: State) -> Result<(), Refusal>
    ensures { result ≡ may_hello state }
{
    match state {
        State::Idle => Ok(()),
        State::Sent => Err(Refusal::NotAllowed),
        State::Replied => Err(Refusal::NotAllowed),
        State::Spec => Err(Refusal::NotAllowed),
        State::Opening => Err(Refusal::NotAllowed),
        State::Open => Err(Refusal::NotAllowed),
        State::Closed => Err(Refusal::Ended),
        State::Barred => Err(Refusal::Ended),
    }
}

// The hello of an offer: 6, or Sent.
fn greet(u: Unit, random: [u8; 16], offer: Offer, out: &mut [u8]) -> Sent
    requires { length random ≡ 16 }
    ensures value { result ≡ greeted_with u random offer (length out.old) }
    ensures out_after { out.new ≡ written_of out.old (hello_datagram u.id random offer) }
{
    let id = u.id;
    let size = say(id, random, offer, out);
    if size == 0 {
        return refused(u, Refusal::Room);
    }
    let last = checksum(&out[..size]);
    done(u.greeted(random, offer, last), size)
}

// The hello that was sent, once more.
fn again_hello(u: Unit, out: &mut [u8]) -> Sent
    ensures value { result ≡ said_again u (hello_datagram u.id u.protection.keys.client u.offer) (length out.old) }
    ensures out_after { out.new ≡ written_of out.old (hello_datagram u.id u.protection.keys.client u.offer) }
{
    let id = u.id;
    let offer = u.offer;
    let protection = u.protection;
    let keys = protection.keys;
    let client = keys.client;
    let size = say(id, client, offer, out);
    if size == 0 {
        return refused(u, Refusal::Room);
    }
    done(u, size)
}

// The flight once more.
fn again_flight(u: Unit, out: &mut [u8]) -> Sent
    ensures value { result ≡ said_again u (flight_of u) (length out.old) }
    ensures out_after { out.new ≡ written_of out.old (flight_of u) }
{
    let flight = u.flight;
    let protection = u.protection;
    let keys = protection.keys;
    let mac = keys.mac;
    let size = 24 + mac.size();
    if out.len() < size {
        return refused(u, Refusal::Room);
    }
    digest::put(out, 0, &flight[..size]);
    done(u, size)
}

// The hello as a datagram of one record without a length. Answers how many bytes it wrote: all or none.
fn say(id: [u8; 8], random: [u8; 16], offer: Offer, out: &mut [u8]) -> usize
    requires { (length id ≡ 8) × (length random ≡ 16) }
    ensures value { result ≡ count_of out.old (hello_datagram id random offer) }
    ensures out_after { out.new ≡ written_of out.old (hello_datagram id random offer) }
{
    let said = message_in(id, random, offer);
    let bytes = said.bytes;
    let size = said.size;
    write_clear(false, Content::Handshake, 0, &bytes[..size], out)
}
