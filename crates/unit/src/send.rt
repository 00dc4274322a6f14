// Send data and send an alert (02, P7): each as a datagram of one record without a length.
ghost use Rattle.std.specs.Prelude.{ℕ, ◌≡◌, length};
ghost use Rattle.record.specs.Protection.{output_by};
ghost use Rattle.record.specs.declared.keys.Sense.TheVariants.{FromUnit};
ghost use Rattle.unit.specs.Send.{data_sent, data_output, alert_sent, alert_output, alert_sent_by, alert_output_by, may_protect, may_clear, unsent, done_with, protected_sent, clear_sent, clear_output};

use crate::state::State;
use crate::unit::Unit;
use connection::refusal::Refusal;
use message::alert;
use record::checksum::checksum;
use record::header::Content;
use record::keys::Sense;
use record::written::write_clear;

// The outcome of a call that writes, how many bytes stand at the front of the output, and the unit that it leaves.
#[derive(Clone, Copy)]
pub struct Sent {
    pub outcome: Result<(), Refusal>,
    pub written: usize,
    pub unit: Unit,
}

// Sends 1 to 1,300 bytes of data in Opening and in Open. Refusals: 16, 7, 8, 15, 6.
pub fn send_data(u: Unit, data: &[u8], out: &mut [u8]) -> Sent
    ensures exact { result ≡ data_sent u «data».now (length out.old) }
    ensures bytes { out.new ≡ data_output u «data».now out.old }
{
    if data.len() == 0 {
        return refused(u, Refusal::Argument);
    }
    if 1300 < data.len() {
        return refused(u, Refusal::Argument);
    }
    let state = u.state;
    match may_protect(state) {
        Err(refusal) => refused(u, refusal),
        Ok(()) => protected(u, Content::Data, data, out),
    }
}

// Sends an alert, clear or protected, with the checksum of the record that it answers. Refusals: 16, 7, 8, 15, 6. Closing is
// a call of its own.
pub fn send_alert(
    u: Unit,
    protected: bool,
    level: u8,
    description: u8,
    answered: &[u8],
    out: &mut [u8],
) -> Sent
    ensures exact { result ≡ alert_sent u protected level description answered.now (length out.old) }
    ensures bytes { out.new ≡ alert_output u protected level description answered.now out.old }
{
    let Some(graded) = alert::grade(level) else {
        return refused(u, Refusal::Argument);
    };
    let Some(sorted) = alert::sort(description) else {
        return refused(u, Refusal::Argument);
    };
    if 1400 < answered.len() {
        return refused(u, Refusal::Argument);
    }
    let bytes = alert::write(graded, sorted, checksum(answered));
    send_body(u, protected, bytes, out)
}

// The bytes of an alert, in the next record.
fn send_body(u: Unit, shut: bool, bytes: [u8; 6], out: &mut [u8]) -> Sent
    ensures exact { result ≡ alert_sent_by u shut bytes (length out.old) }
    ensures bytes { out.new ≡ alert_output_by u shut bytes out.old }
{
    let state = u.state;
    if shut {
        return match may_protect(state) {
            Err(refusal) => refused(u, refusal),
            Ok(()) => protected(u, Content::Alert, &bytes, out),
        };
    }
    match may_clear(state) {
        Err(refusal) => refused(u, refusal),
        Ok(()) => clear(u, &bytes, out),
    }
}

// Data and protected alerts are sent in Opening and in Open.
fn may_protect(state: State) -> Result<(), Refusal>
    ensures { result ≡ may_protect state }
{
    match state {
        State::Idle => Err(Refusal::NotAllowed),
        State::Sent => Err(Refusal::NotAllowed),
        State::Replied => Err(Refusal::NotAllowed),
        State::Spec => Err(Refusal::NotAllowed),
        State::Opening => Ok(()),
        State::Open => Ok(()),
        State::Closed => Err(Refusal::Ended),
        State::Barred => Err(Refusal::Ended),
    }
}

// Clear alerts are sent in Sent, Replied and Spec.
fn may_clear(state: State) -> Result<(), Refusal>
    ensures { result ≡ may_clear state }
{
    match state {
        State::Idle => Err(Refusal::NotAllowed),
        State::Sent => Ok(()),
        State::Replied => Ok(()),
        State::Spec => Ok(()),
        State::Opening => Err(Refusal::NotAllowed),
        State::Open => Err(Refusal::NotAllowed),
        State::Closed => Err(Refusal::Ended),
        State::Barred => Err(Refusal::Ended),
    }
}

// The next protected record, with this content: 15, 6.
fn protected(u: Unit, content: Content, body: &[u8], out: &mut [u8]) -> Sent
    ensures value { result ≡ protected_sent u content body.now (length out.old) }
    ensures out_after { out.new ≡ output_by u.protection FromUnit content body.now out.old }
{
    let protection = u.protection;
    let writing = protection.write(Sense::FromUnit, content, body, out);
    match writing.wrote {
        Err(why) => refused(u, Refusal::from(why)),
        Ok(size) => {
            let last = checksum(&out[..size]);
            done(u.with_sent(writing.protection, last), size)
        }
    }
}

// The next clear record, an alert: 15, 6.
fn clear(u: Unit, body: &[u8], out: &mut [u8]) -> Sent
    ensures value { result ≡ clear_sent u body.now (length out.old) }
    ensures out_after { out.new ≡ clear_output u body.now out.old }
{
    let mut protection = u.protection;
    if 65535 < protection.clear {
        return refused(u, Refusal::Spent);
    }
    let number = protection.clear as u16;
    let size = write_clear(false, Content::Alert, number, body, out);
    if size == 0 {
        return refused(u, Refusal::Room);
    }
    let last = checksum(&out[..size]);
    let next = protection.clear + 1;
    protection.clear = next;
    done(u.with_sent(protection, last), size)
}

// A refused call changes nothing.
pub(crate) fn refused(u: Unit, refusal: Refusal) -> Sent
    ensures { result ≡ unsent u refusal }
{
    Sent {
        outcome: Err(refusal),
        written: 0,
        unit: u,
    }
}

pub(crate) fn done(u: Unit, written: usize) -> Sent
    ensures { result ≡ done_with written u }
{
    Sent {
        outcome: Ok(()),
        written,
        unit: u,
    }
}
