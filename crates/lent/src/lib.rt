// The calls of the connection, on a connection and a tally that live in bytes which the caller lends. Nothing is kept
// between calls. No call has a `requires`: what is lent is tested. Each call answers one number of three parts
// (`result`), and a refused call leaves every lent byte as it was. The crate `gateway` exports them to C and Rust.
#![tactic(auto)]

ghost use Rattle.std.specs.Prelude.{◌≡◌, length};
ghost use Rattle.lent.specs.Calls.{fresh_result, fresh_state, close_result, close_state, start_result, start_state};
ghost use Rattle.lent.specs.Calls.{state_result, arrived_result, width_result};
ghost use Rattle.lent.specs.Calls.{fresh_loads, close_loads, start_loads, data_loads, alert_loads, receive_loads};
ghost use Rattle.lent.specs.Saved.{loaded};
ghost use Rattle.lent.specs.Calls.{data_result, data_state, data_out, alert_result, alert_state, alert_out};
ghost use Rattle.lent.specs.Calls.{receive_result, receive_state, receive_tally, receive_answers, receive_out};
ghost use Rattle.lent.specs.Macs.{mac_result, mac_out};

mod bytes;
mod counts;
mod leave;
mod load;
mod macs;
mod parts;
mod report;
mod result;
mod save;

pub use bytes::{bytes_within, eight, eight_within, four, four_within, two, two_within};
use connection::{calls, receive, send};
pub use counts::{lay_tally, tally_within};
use digest::mac_named;
use leave::{leave_called, leave_received, leave_sent};
use load::{connection_in, open_window};
pub use load::{connection_within, is_saved, lent_for, sent_within};
use macs::leave_named;
pub use parts::{
    agreed_bytes, mac_numbered, protection_in, session_bytes, standing_bytes, window_in, words,
};
pub use report::{Entry, lay_entry};
pub use result::{not_taken, result_of};
use save::SIZE;
pub use save::{lay_sent, state_number};

// A fresh connection of a planted session, with a window of this width, 32 to 64, in 940 bytes. Refusal: 16.
pub fn fresh(id: &[u8], secret: &[u8], width: u32, state: &mut [u8]) -> u64
    ensures exact { result ≡ fresh_result id.now secret.now width (length state.old) }
    ensures bytes { state.new ≡ fresh_state id.now secret.now width
        state.old }
    ensures loads { loaded state.new ≡ fresh_loads id.now secret.now width
        state.old }
{
    if state.len() != SIZE {
        return not_taken();
    }
    leave_called(calls::fresh(id, secret, width), state)
}

// Takes a datagram, our random for a new reply, and room of at least 128 bytes for it. Afterwards the first bytes of
// `out` are a reply to send, if any; `answers` holds an answer for each record; the tally is up to date. Refusals of
// the whole: 16, 6, 1 to 5.
pub fn receive(
    state: &mut [u8],
    tally: &mut [u8],
    datagram: &[u8],
    random: &[u8],
    out: &mut [u8],
    answers: &mut [u8],
) -> u64
    ensures exact { result ≡ receive_result state.old tally.old answers.old
        datagram.now random.now (length out.old) }
    ensures connection { state.new ≡ receive_state state.old tally.old
        answers.old datagram.now random.now (length out.old) }
    ensures counted { tally.new ≡ receive_tally state.old tally.old
        answers.old datagram.now random.now (length out.old) }
    ensures bytes { out.new ≡ receive_out state.old tally.old answers.old
        datagram.now random.now out.old }
    ensures answered { answers.new ≡ receive_answers state.old tally.old
        answers.old datagram.now random.now (length out.old) }
    ensures loads { loaded state.new ≡ receive_loads state.old tally.old
        answers.old datagram.now random.now (length out.old) }
{
    if lent_for(state, tally.len(), answers.len()) {
        let received = receive::receive(connection_in(state), datagram, random, out);
        return leave_received(received, state, tally, answers);
    }
    not_taken()
}

// Sends 1 to 1,300 bytes of data in Open. Refusals: 16, 7, 8, 15, 6.
pub fn send_data(state: &mut [u8], data: &[u8], out: &mut [u8]) -> u64
    ensures exact { result ≡ data_result state.old «data».now (length out.old) }
    ensures connection { state.new ≡ data_state state.old «data».now
        (length out.old) }
    ensures bytes { out.new ≡ data_out state.old «data».now out.old }
    ensures loads { loaded state.new ≡ data_loads state.old «data».now
        (length out.old) }
{
    if is_saved(state) {
        let sent = send::send_data(connection_in(state), data, out);
        return leave_sent(sent, state);
    }
    not_taken()
}

// Sends an alert, clear (0) or protected (1), with the checksum of the record that it answers. Refusals: 16, 7, 8, 15,
// 6.
pub fn send_alert(
    state: &mut [u8],
    protected: u32,
    level: u32,
    description: u32,
    answered: &[u8],
    out: &mut [u8],
) -> u64
    ensures exact { result ≡ alert_result state.old protected level description
        answered.now (length out.old) }
    ensures connection { state.new ≡ alert_state state.old protected level description
        answered.now (length out.old) }
    ensures bytes { out.new ≡ alert_out state.old protected level description
        answered.now out.old }
    ensures loads { loaded state.new ≡ alert_loads state.old protected level description
        answered.now (length out.old) }
{
    if 1 < protected || 255 < level || 255 < description {
        return not_taken();
    }
    if is_saved(state) {
        let sent = send::send_alert(
            connection_in(state),
            protected == 1,
            level as u8,
            description as u8,
            answered,
            out,
        );
        return leave_sent(sent, state);
    }
    not_taken()
}

// Close leads anywhere but Barred to Closed. Refusals: 16, 7.
pub fn close(state: &mut [u8]) -> u64
    ensures exact { result ≡ close_result state.old }
    ensures bytes { state.new ≡ close_state state.old }
    ensures loads { loaded state.new ≡ close_loads state.old }
{
    if is_saved(state) {
        return leave_called(calls::close(connection_in(state)), state);
    }
    not_taken()
}

// Start again leads from Closed to Idle. Refusals: 16, 7, 8.
pub fn start(state: &mut [u8]) -> u64
    ensures exact { result ≡ start_result state.old }
    ensures bytes { state.new ≡ start_state state.old }
    ensures loads { loaded state.new ≡ start_loads state.old }
{
    if is_saved(state) {
        return leave_called(calls::start(connection_in(state)), state);
    }
    not_taken()
}

// The number of the state that the connection is in. Refusal: 16, where the bytes are no saved connection.
pub fn state(state: &[u8]) -> u64
    ensures exact { result ≡ state_result state.now }
{
    if is_saved(state) {
        let number = state[40];
        return result_of(0, 0, number as usize);
    }
    not_taken()
}

// The arrival report: how many of the newest numbers have arrived, as many as the width says. Refusal: 16, where the
// bytes are no saved connection.
pub fn arrived(state: &[u8]) -> u64
    ensures exact { result ≡ arrived_result state.now }
{
    if is_saved(state) {
        let window = open_window(state);
        return result_of(0, 0, window.arrival() as usize);
    }
    not_taken()
}

// The width of the connection's window. Refusal: 16, where the bytes are no saved connection.
pub fn width(state: &[u8]) -> u64
    ensures exact { result ≡ width_result state.now }
{
    if is_saved(state) {
        let window = open_window(state);
        return result_of(0, 0, window.width as usize);
    }
    not_taken()
}

// What edition 1 or 2 of the list of MAC kinds says of a number: its name at the front of `out`, its sizes as the count.
// Refusals: 16, 6.
pub fn mac(edition: u32, number: u32, out: &mut [u8]) -> u64
    ensures exact { result ≡ mac_result edition number (length out.old) }
    ensures bytes { out.new ≡ mac_out edition number out.old }
{
    if 255 < edition || 255 < number {
        return not_taken();
    }
    leave_named(mac_named(edition as u8, number as u8), out)
}
