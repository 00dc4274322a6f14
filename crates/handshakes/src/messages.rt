// The messages of a handshake (002 10.5): both hellos, and the Finished of each end with the hash and the contents that
// it comes from.
use crate::session;
use crate::show::line;
use digest::{Hasher, Mac};
use message::acceptance::Plan;
use message::{finished, server, writer};
use std::io;
use std::io::Write;

// The ClientHello that offers the null cipher with one MAC kind, null compression and explicit numbering.
pub fn client_hello(offered: Mac) -> [u8; 40] {
    let mut out = [0u8; 40];
    writer::write(
        1,
        &session::CLIENT_RANDOM,
        &session::ID,
        &[],
        &[],
        &[0, offered.number()],
        b"\x00",
        2,
        session::REFRESH,
        &mut out,
    );
    out
}

// The ServerHello of the plan.
pub fn server_hello(plan: Plan) -> [u8; 35] {
    let mut out = [0u8; 35];
    server::write(&session::SERVER_RANDOM, &session::ID, plan, &mut out);
    out
}

pub fn hellos<W: Write>(mac: Mac, client: &[u8], server: &[u8], out: &mut W) -> io::Result<()> {
    line(mac, "client-hello", client, out)?;
    line(mac, "server-hello", server, out)
}

// The shore's Finished, which covers both hellos.
pub fn server_finished<W: Write>(
    mac: Mac,
    client: &[u8],
    server: &[u8],
    out: &mut W,
) -> io::Result<[u8; 15]> {
    let hash = Hasher::new().update(client).update(server).finish();
    let verify = finished::server_verify(&session::SECRET, client, server);
    let message = finished::message(verify);
    line(mac, "hash-hellos", &hash, out)?;
    line(mac, "server-verify-data", &verify, out)?;
    line(mac, "server-finished", &message, out)?;
    Ok(message)
}

// The unit's Finished, which covers both hellos and the shore's Finished.
pub fn client_finished<W: Write>(
    mac: Mac,
    client: &[u8],
    server: &[u8],
    ours: &[u8],
    out: &mut W,
) -> io::Result<[u8; 15]> {
    let hash = Hasher::new()
        .update(client)
        .update(server)
        .update(ours)
        .finish();
    let verify = finished::client_verify(&session::SECRET, client, server, ours);
    let message = finished::message(verify);
    line(mac, "hash-all", &hash, out)?;
    line(mac, "client-verify-data", &verify, out)?;
    line(mac, "client-finished", &message, out)?;
    Ok(message)
}
