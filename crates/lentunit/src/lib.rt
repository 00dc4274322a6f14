// The calls of the shipboard end, on a unit and a tally that live in bytes which the caller lends, as the shore's are in `lent`.
// They are calls of their own and no instances of those: C exports each, over another type of state with definitions of its own.
// Nothing is kept between calls. No call has a `requires`: what is lent is tested. Each call answers one number of three parts
// (`lent::result_of`), and a refused call leaves every lent byte as it was. The crate `shipboard` exports them to C and Rust.
#![tactic(auto)]

ghost use Rattle.std.specs.Prelude.{◌≡◌, length};
ghost use Rattle.lentunit.specs.Saved.{loaded};
ghost use Rattle.lentunit.specs.Calls.{fresh_result, fresh_state, close_result, close_state, start_result, start_state};
ghost use Rattle.lentunit.specs.Calls.{state_result, arrived_result, width_result};
ghost use Rattle.lentunit.specs.Calls.{fresh_loads, close_loads, start_loads, hello_loads, data_loads, alert_loads, receive_loads};
ghost use Rattle.lentunit.specs.Calls.{hello_result, hello_state, hello_out, again_result, again_out};
ghost use Rattle.lentunit.specs.Calls.{data_result, data_state, data_out, alert_result, alert_state, alert_out};
ghost use Rattle.lentunit.specs.Calls.{receive_result, receive_state, receive_tally, receive_answers, receive_out};

mod leave;
mod load;
mod report;
mod save;

use leave::{leave_called, leave_received, leave_sent, said};
use lent::{not_taken, result_of};
use load::{is_saved, lent_for, unit_in, window_in};
use save::SIZE;
use unit::{calls, hello, receive, send};

// A fresh unit of a planted session, with a window of this width, 32 to 64, in 180 bytes. Refusal: 16.
pub fn fresh(id: &[u8], secret: &[u8], width: u32, state: &mut [u8]) -> u64
    ensures exact { result ≡ fresh_result id.now secret.now width (length state.old) }
    ensures bytes { state.new ≡ fresh_state id.now secret.now width
        state.old }
    ensures loads { loaded state.new ≡ fresh_loads id.now secret.now width
        state.old }
{
    if state.len() != SIZE {
        return not_taken();
    }
    leave_called(calls::fresh(id, secret, width), state)
}

// Writes the ClientHello with this random of 16 bytes, these MAC kinds in their order (one or both of 2 and 3) and a key refresh to
// 255, in Idle. Refusals: 16, 7, 8, 6.
pub fn hello(state: &mut [u8], random: &[u8], macs: &[u8], refresh: u32, out: &mut [u8]) -> u64
    ensures exact { result ≡ hello_result state.old random.now macs.now refresh
        (length out.old) }
    ensures unit { state.new ≡ hello_state state.old random.now macs.now refresh
        (length out.old) }
    ensures bytes { out.new ≡ hello_out state.old random.now macs.now refresh
        out.old }
    ensures loads { loaded state.new ≡ hello_loads state.old random.now
        macs.now refresh (length out.old) }
{
    if is_saved(state) {
        let sent = hello::hello(unit_in(state), random, macs, refresh, out);
        return leave_sent(sent, state);
    }
    not_taken()
}

// Gives the hello's datagram again, or the flight's, until data or the warning on a repeated Finished comes. Nothing changes.
// Refusals: 16, 7, 8, 6.
pub fn again(state: &[u8], out: &mut [u8]) -> u64
    ensures exact { result ≡ again_result state.now (length out.old) }
    ensures bytes { out.new ≡ again_out state.now out.old }
{
    if is_saved(state) {
        let sent = hello::again(unit_in(state), out);
        return said(sent);
    }
    not_taken()
}

// Takes a datagram, and room of at least 128 bytes for our flight. Afterwards the first bytes of `out` are the flight to send, if
// any; `answers` holds an answer for each record; the tally is up to date. Refusals of the whole: 16, 6, 1 to 5.
pub fn receive(
    state: &mut [u8],
    tally: &mut [u8],
    datagram: &[u8],
    out: &mut [u8],
    answers: &mut [u8],
) -> u64
    ensures exact { result ≡ receive_result state.old tally.old answers.old
        datagram.now (length out.old) }
    ensures unit { state.new ≡ receive_state state.old tally.old
        answers.old datagram.now (length out.old) }
    ensures counted { tally.new ≡ receive_tally state.old tally.old
        answers.old datagram.now (length out.old) }
    ensures bytes { out.new ≡ receive_out state.old tally.old answers.old
        datagram.now out.old }
    ensures answered { answers.new ≡ receive_answers state.old tally.old
        answers.old datagram.now (length out.old) }
    ensures loads { loaded state.new ≡ receive_loads state.old tally.old
        answers.old datagram.now (length out.old) }
{
    if lent_for(state, tally.len(), answers.len()) {
        let received = receive::receive(unit_in(state), datagram, out);
        return leave_received(received, state, tally, answers);
    }
    not_taken()
}

// Sends 1 to 1,300 bytes of data in Opening and in Open. Refusals: 16, 7, 8, 15, 6.
pub fn send_data(state: &mut [u8], data: &[u8], out: &mut [u8]) -> u64
    ensures exact { result ≡ data_result state.old «data».now (length out.old) }
    ensures unit { state.new ≡ data_state state.old «data».now
        (length out.old) }
    ensures bytes { out.new ≡ data_out state.old «data».now out.old }
    ensures loads { loaded state.new ≡ data_loads state.old «data».now
        (length out.old) }
{
    if is_saved(state) {
        let sent = send::send_data(unit_in(state), data, out);
        return leave_sent(sent, state);
    }
    not_taken()
}

// Sends an alert, clear (0) or protected (1), with the checksum of the record that it answers. Refusals: 16, 7, 8, 15, 6.
pub fn send_alert(
    state: &mut [u8],
    protected: u32,
    level: u32,
    description: u32,
    answered: &[u8],
    out: &mut [u8],
) -> u64
    ensures exact { result ≡ alert_result state.old protected level description
        answered.now (length out.old) }
    ensures unit { state.new ≡ alert_state state.old protected level description
        answered.now (length out.old) }
    ensures bytes { out.new ≡ alert_out state.old protected level description
        answered.now out.old }
    ensures loads { loaded state.new ≡ alert_loads state.old protected level description
        answered.now (length out.old) }
{
    if 1 < protected || 255 < level || 255 < description {
        return not_taken();
    }
    if is_saved(state) {
        let sent = send::send_alert(
            unit_in(state),
            protected == 1,
            level as u8,
            description as u8,
            answered,
            out,
        );
        return leave_sent(sent, state);
    }
    not_taken()
}

// Close leads anywhere but Barred to Closed. Refusals: 16, 7.
pub fn close(state: &mut [u8]) -> u64
    ensures exact { result ≡ close_result state.old }
    ensures bytes { state.new ≡ close_state state.old }
    ensures loads { loaded state.new ≡ close_loads state.old }
{
    if is_saved(state) {
        return leave_called(calls::close(unit_in(state)), state);
    }
    not_taken()
}

// Start again leads from Closed to Idle. Refusals: 16, 7, 8.
pub fn start(state: &mut [u8]) -> u64
    ensures exact { result ≡ start_result state.old }
    ensures bytes { state.new ≡ start_state state.old }
    ensures loads { loaded state.new ≡ start_loads state.old }
{
    if is_saved(state) {
        return leave_called(calls::start(unit_in(state)), state);
    }
    not_taken()
}

// The number of the state that the unit is in. Refusal: 16, where the bytes are no saved unit.
pub fn state(state: &[u8]) -> u64
    ensures exact { result ≡ state_result state.now }
{
    if is_saved(state) {
        let number = state[40];
        return result_of(0, 0, number as usize);
    }
    not_taken()
}

// The arrival report: how many of the newest numbers have arrived, as many as the width says. Refusal: 16, where the bytes are no
// saved unit.
pub fn arrived(state: &[u8]) -> u64
    ensures exact { result ≡ arrived_result state.now }
{
    if is_saved(state) {
        let window = window_in(state);
        return result_of(0, 0, window.arrival() as usize);
    }
    not_taken()
}

// The width of the unit's window. Refusal: 16, where the bytes are no saved unit.
pub fn width(state: &[u8]) -> u64
    ensures exact { result ≡ width_result state.now }
{
    if is_saved(state) {
        let window = window_in(state);
        return result_of(0, 0, window.width as usize);
    }
    not_taken()
}
