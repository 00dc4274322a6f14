// What C and Rust link of the shipboard end: each call is one of `lentunit`, under a name of its own. include/unit.h is the manual. A
// crate apart, since no crate can use a static library.
#![tactic(auto)]

ghost use Rattle.std.specs.Prelude.{◌≡◌, length};
ghost use Rattle.lentunit.specs.Saved.{loaded};
ghost use Rattle.lentunit.specs.Calls.{fresh_result, fresh_state, close_result, close_state, start_result, start_state};
ghost use Rattle.lentunit.specs.Calls.{state_result, arrived_result, width_result};
ghost use Rattle.lentunit.specs.Calls.{fresh_loads, close_loads, start_loads, hello_loads, data_loads, alert_loads, receive_loads};
ghost use Rattle.lentunit.specs.Calls.{hello_result, hello_state, hello_out, again_result, again_out};
ghost use Rattle.lentunit.specs.Calls.{data_result, data_state, data_out, alert_result, alert_state, alert_out};
ghost use Rattle.lentunit.specs.Calls.{receive_result, receive_state, receive_tally, receive_answers, receive_out};

// A fresh unit of a planted session, with a window of this width, 32 to 64, in 180 bytes. Refusal: 16.
#[unsafe(no_mangle)]
pub extern "C" fn unit_fresh(id: &[u8], secret: &[u8], width: u32, state: &mut [u8]) -> u64
    ensures exact { result ≡ fresh_result id.now secret.now width (length state.old) }
    ensures bytes { state.new ≡ fresh_state id.now secret.now width
        state.old }
    ensures loads { loaded state.new ≡ fresh_loads id.now secret.now width
        state.old }
{
    lentunit::fresh(id, secret, width, state)
}

// Writes the ClientHello with this random of 16 bytes, these MAC kinds in their order (one or both of 2 and 3) and a key refresh to
// 255, in Idle. Refusals: 16, 7, 8, 6.
#[unsafe(no_mangle)]
pub extern "C" fn unit_hello(
    state: &mut [u8],
    random: &[u8],
    macs: &[u8],
    refresh: u32,
    out: &mut [u8],
) -> u64
    ensures exact { result ≡ hello_result state.old random.now macs.now refresh
        (length out.old) }
    ensures unit { state.new ≡ hello_state state.old random.now macs.now refresh
        (length out.old) }
    ensures bytes { out.new ≡ hello_out state.old random.now macs.now refresh
        out.old }
    ensures loads { loaded state.new ≡ hello_loads state.old random.now
        macs.now refresh (length out.old) }
{
    lentunit::hello(state, random, macs, refresh, out)
}

// Gives the hello's datagram again, or the flight's, until data or the warning on a repeated Finished comes. Nothing changes.
// Refusals: 16, 7, 8, 6.
#[unsafe(no_mangle)]
pub extern "C" fn unit_again(state: &[u8], out: &mut [u8]) -> u64
    ensures exact { result ≡ again_result state.now (length out.old) }
    ensures bytes { out.new ≡ again_out state.now out.old }
{
    lentunit::again(state, out)
}

// Takes a datagram, and room of at least 128 bytes for our flight. Afterwards the first bytes of `out` are the flight to send, if
// any; `answers` holds an answer for each record; the tally is up to date. Refusals of the whole: 16, 6, 1 to 5.
#[unsafe(no_mangle)]
pub extern "C" fn unit_receive(
    state: &mut [u8],
    tally: &mut [u8],
    datagram: &[u8],
    out: &mut [u8],
    answers: &mut [u8],
) -> u64
    ensures exact { result ≡ receive_result state.old tally.old answers.old
        datagram.now (length out.old) }
    ensures unit { state.new ≡ receive_state state.old tally.old
        answers.old datagram.now (length out.old) }
    ensures counted { tally.new ≡ receive_tally state.old tally.old
        answers.old datagram.now (length out.old) }
    ensures bytes { out.new ≡ receive_out state.old tally.old answers.old
        datagram.now out.old }
    ensures answered { answers.new ≡ receive_answers state.old tally.old
        answers.old datagram.now (length out.old) }
    ensures loads { loaded state.new ≡ receive_loads state.old tally.old
        answers.old datagram.now (length out.old) }
{
    lentunit::receive(state, tally, datagram, out, answers)
}

// Sends 1 to 1,300 bytes of data in Opening and in Open. Refusals: 16, 7, 8, 15, 6.
#[unsafe(no_mangle)]
pub extern "C" fn unit_send_data(state: &mut [u8], data: &[u8], out: &mut [u8]) -> u64
    ensures exact { result ≡ data_result state.old «data».now (length out.old) }
    ensures unit { state.new ≡ data_state state.old «data».now
        (length out.old) }
    ensures bytes { out.new ≡ data_out state.old «data».now out.old }
    ensures loads { loaded state.new ≡ data_loads state.old «data».now
        (length out.old) }
{
    lentunit::send_data(state, data, out)
}

// Sends an alert, clear (0) or protected (1), with the checksum of the record that it answers. Refusals: 16, 7, 8, 15, 6.
#[unsafe(no_mangle)]
pub extern "C" fn unit_send_alert(
    state: &mut [u8],
    protected: u32,
    level: u32,
    description: u32,
    answered: &[u8],
    out: &mut [u8],
) -> u64
    ensures exact { result ≡ alert_result state.old protected level description
        answered.now (length out.old) }
    ensures unit { state.new ≡ alert_state state.old protected level description
        answered.now (length out.old) }
    ensures bytes { out.new ≡ alert_out state.old protected level description
        answered.now out.old }
    ensures loads { loaded state.new ≡ alert_loads state.old protected level description
        answered.now (length out.old) }
{
    lentunit::send_alert(state, protected, level, description, answered, out)
}

// Close leads anywhere but Barred to Closed. Refusals: 16, 7.
#[unsafe(no_mangle)]
pub extern "C" fn unit_close(state: &mut [u8]) -> u64
    ensures exact { result ≡ close_result state.old }
    ensures bytes { state.new ≡ close_state state.old }
    ensures loads { loaded state.new ≡ close_loads state.old }
{
    lentunit::close(state)
}

// Start again leads from Closed to Idle. Refusals: 16, 7, 8.
#[unsafe(no_mangle)]
pub extern "C" fn unit_start(state: &mut [u8]) -> u64
    ensures exact { result ≡ start_result state.old }
    ensures bytes { state.new ≡ start_state state.old }
    ensures loads { loaded state.new ≡ start_loads state.old }
{
    lentunit::start(state)
}

// The number of the state that the unit is in. Refusal: 16, where the bytes are no saved unit.
#[unsafe(no_mangle)]
pub extern "C" fn unit_state(state: &[u8]) -> u64
    ensures exact { result ≡ state_result state.now }
{
    lentunit::state(state)
}

// The arrival report: how many of the newest numbers have arrived, as many as the width says. Refusal: 16, where the bytes are no
// saved unit.
#[unsafe(no_mangle)]
pub extern "C" fn unit_arrived(state: &[u8]) -> u64
    ensures exact { result ≡ arrived_result state.now }
{
    lentunit::arrived(state)
}

// The width of the unit's window. Refusal: 16, where the bytes are no saved unit.
#[unsafe(no_mangle)]
pub extern "C" fn unit_width(state: &[u8]) -> u64
    ensures exact { result ≡ width_result state.now }
{
    lentunit::width(state)
}
