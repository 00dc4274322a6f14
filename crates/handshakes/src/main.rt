// Two worked handshakes, one for each MAC kind, with every value on the way: a line for each, the kind and the name of
// the value, then its bytes. All of them are computed by the crates below; what they must be is computed by the second
// implementation in host/ (tests/handshakes).
#![tactic(auto)]

mod datagrams;
mod messages;
mod protection;
mod session;
mod show;

use digest::Mac;
use lines::output::Output;
use message::acceptance;
use message::acceptance::Plan;
use std::io;
use std::io::Write;

fn main(rt: HostRuntime) -> io::Result<()> {
    let mut out = Output::new(io::writer(&rt));
    handshake(Mac::Sha80, &mut out)?;
    handshake(Mac::Sha, &mut out)?;
    out.flush()
}

// The handshake after a hello that offers this kind alone.
fn handshake<W: Write>(offered: Mac, out: &mut W) -> io::Result<()> {
    let client = messages::client_hello(offered);
    let Ok(plan) = acceptance::hear(&client, &session::ID) else {
        return Ok(());
    };
    let server = messages::server_hello(plan);
    planned(plan, &client, &server, out)
}

// What follows from the plan and both hellos.
fn planned<W: Write>(plan: Plan, client: &[u8], server: &[u8], out: &mut W) -> io::Result<()> {
    let mac = plan.mac;
    messages::hellos(mac, client, server, out)?;
    let ours = messages::server_finished(mac, client, server, out)?;
    let theirs = messages::client_finished(mac, client, server, &ours, out)?;
    protection::secrets(plan, out)?;
    protection::codes(plan, &ours, &theirs, out)?;
    protection::records(plan, out)?;
    datagrams::last_record(plan, &ours, out)?;
    datagrams::hello_datagram(mac, client, out)?;
    datagrams::reply(plan, server, &ours, out)?;
    datagrams::flight(plan, &theirs, out)
}
