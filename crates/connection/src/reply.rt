// The reply to an accepted ClientHello: ServerHello, change cipher spec and Finished in one datagram (01, "Handshake").
ghost use Rattle.std.specs.Prelude.{ℕ, ◌+◌, ◌-◌, ◌≤◌, ◌≡◌, length, take, drop, ◌++◌};
ghost use Rattle.connection.specs.Reply.{answered_with, client_random, flight_with, pad_to};
ghost use Rattle.message.specs.Server.{server_hello_of};

use crate::handshake::{Handshake, Kept};
use crate::state::State;
use digest::Mac;
use message::acceptance::Plan;
use message::change::change;
use message::{finished, server};
use record::code::write_protected;
use record::header::Content;
use record::keys::{Keys, derived};
use record::protection::Protection;
use record::written::write_clear;

// The handshake after a new reply to the hello m: `random` is ours. The window stays as it was.
pub(crate) fn answered(h: Handshake, random: [u8; 16], m: &[u8], plan: Plan) -> Handshake
    requires { (length random ≡ 16) × ((20 ≤ length m.now) × (length m.now ≤ 256)) }
    ensures { result ≡ answered_with h random m.now plan }
{
    let id = h.id;
    let protection = h.protection;
    let keys = protection.keys;
    let secret = keys.secret;
    let mac = plan.mac;
    let client = client_random(m);
    let hello = server_hello(random, id, plan);
    let ours = finished::message(finished::server_verify(&secret, m, &hello));
    let expected = finished::client_verify(&secret, m, &hello, &ours);
    let reply = flown(secret, random, client, mac, hello, ours);
    let window = protection.window;
    Handshake {
        state: State::Replied,
        id,
        expected,
        kept: Kept {
            hello: kept_hello(m),
            heard: m.len(),
            reply,
            size: 64 + mac.size(),
        },
        protection: Protection {
            keys: Keys {
                secret,
                server: random,
                client,
                mac,
                refresh: plan.refresh,
            },
            window,
            protected: 1,
            clear: 2,
        },
    }
}

// The random of a hello: behind the type and the length of the message and the version.
fn client_random(m: &[u8]) -> [u8; 16]
    requires { 20 ≤ length m.now }
    ensures { result ≡ client_random m.now }
{
    let mut d = [0u8; 16];
    digest::put(&mut d, 0, &m[4..20]);
    d
}

// The hello at the front of its place, zeros behind it.
fn kept_hello(m: &[u8]) -> [u8; 256]
    requires { length m.now ≤ 256 }
    ensures { result ≡ pad_to 256 m.now }
{
    let mut d = [0u8; 256];
    digest::put(&mut d, 0, m);
    d
}

fn server_hello(random: [u8; 16], id: [u8; 8], plan: Plan) -> [u8; 35]
    requires { (length random ≡ 16) × (length id ≡ 8) }
    ensures { result ≡ server_hello_of random id plan }
{
    let mut d = [0u8; 35];
    server::write(&random, &id, plan, &mut d);
    d
}

// The three records one behind the other, zeros behind them.
fn flown(
    secret: [u8; 20],
    server: [u8; 16],
    client: [u8; 16],
    mac: Mac,
    hello: [u8; 35],
    ours: [u8; 15],
) -> [u8; 84]
    requires { (length hello ≡ 35) × (length ours ≡ 15) }
    ensures { result ≡ flight_with secret server client mac hello ours }
{
    let label = Mac::SERVER_EXPANSION;
    let key = derived(&secret, &label, 0, &server, &client);
    let one = change();
    let mut first = [0u8; 40];
    write_clear(true, Content::Handshake, 0, &hello, &mut first);
    let mut second = [0u8; 6];
    write_clear(true, Content::ChangeCipherSpec, 1, &one, &mut second);
    let mut third = [0u8; 38];
    write_protected(key, mac, false, Content::Handshake, 0, &ours, &mut third);
    joined(first, second, third)
}

// The records joined.
fn joined(first: [u8; 40], second: [u8; 6], third: [u8; 38]) -> [u8; 84]
    requires { (length first ≡ 40) × ((length second ≡ 6) × (length third ≡ 38)) }
    ensures { result ≡ first ++ (second ++ third) }
{
    let mut reply = [0u8; 84];
    digest::put(&mut reply, 0, &first);
    digest::put(&mut reply, 40, &second);
    digest::put(&mut reply, 46, &third);
    reply
}
