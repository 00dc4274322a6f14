// Records under protection (002 9.2.3 and 11.2): the MAC secrets of numbers 0 and 19, the codes of both Finished and of
// a record of data from each end, and these two records.
use crate::session;
use crate::show::line;
use digest::Mac;
use message::acceptance::Plan;
use message::field;
use record::header::Content;
use record::keys::{Keys, Sense, key_number};
use record::{code, written};
use std::io;
use std::io::Write;

// The keys of the handshake.
pub fn keys(plan: Plan) -> Keys {
    Keys {
        secret: session::SECRET,
        server: session::SERVER_RANDOM,
        client: session::CLIENT_RANDOM,
        mac: plan.mac,
        refresh: plan.refresh,
    }
}

// The MAC secret for a number, under the label of its direction.
fn secret(plan: Plan, sense: Sense, number: u16) -> [u8; Mac::SECRET_SIZE] {
    let label = match sense {
        Sense::FromUnit => Mac::client_expansion(),
        Sense::FromShore => Mac::server_expansion(),
    };
    let mut out = [0u8; Mac::SECRET_SIZE];
    digest::prf(
        &session::SECRET,
        &label,
        &key_number(plan.refresh, number).to_be_bytes(),
        &session::SERVER_RANDOM,
        &session::CLIENT_RANDOM,
        &mut out,
    );
    out
}

pub fn secrets<W: Write>(plan: Plan, out: &mut W) -> io::Result<()> {
    let secrets = [
        ("client-secret-0", Sense::FromUnit, 0),
        ("client-secret-19", Sense::FromUnit, 19),
        ("server-secret-0", Sense::FromShore, 0),
        ("server-secret-19", Sense::FromShore, 19),
    ];
    for (name, sense, number) in secrets {
        line(plan.mac, name, &secret(plan, sense, number), out)?;
    }
    Ok(())
}

pub fn codes<W: Write>(plan: Plan, ours: &[u8], theirs: &[u8], out: &mut W) -> io::Result<()> {
    let keys = keys(plan);
    let handshake = written::type_byte(false, true, Content::Handshake);
    let data = written::type_byte(false, true, Content::Data);
    let code = code::code(keys.key(Sense::FromUnit, 0), 0, handshake, theirs);
    code_line(plan, "client-code-0", code, out)?;
    let code = code::code(keys.key(Sense::FromUnit, 19), 19, data, b"report");
    code_line(plan, "client-code-19", code, out)?;
    let code = code::code(keys.key(Sense::FromShore, 0), 0, handshake, ours);
    code_line(plan, "server-code-0", code, out)?;
    let code = code::code(keys.key(Sense::FromShore, 19), 19, data, b"answer");
    code_line(plan, "server-code-19", code, out)
}

pub fn records<W: Write>(plan: Plan, out: &mut W) -> io::Result<()> {
    data(plan, Sense::FromUnit, b"report", "client-record-19", out)?;
    data(plan, Sense::FromShore, b"answer", "server-record-19", out)
}

// A code, as it is sent.
fn code_line<W: Write>(plan: Plan, name: &str, whole: [u8; 20], out: &mut W) -> io::Result<()> {
    let mac = plan.mac;
    line(mac, name, mac.cut(&whole), out)
}

// A record of data whole, number 19, without a length.
fn data<W: Write>(
    plan: Plan,
    sense: Sense,
    content: &[u8],
    name: &str,
    out: &mut W,
) -> io::Result<()> {
    let mac = plan.mac;
    let key = keys(plan).key(sense, 19);
    let mut room = [0u8; 64];
    let size = code::write_protected(key, mac, false, Content::Data, 19, content, &mut room);
    line(mac, name, field::part(&room, 0, size), out)
}
