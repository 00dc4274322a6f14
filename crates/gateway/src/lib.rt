// What C and Rust link: each call is one of `lent`, or for short messages of `lentshort`, under a name of its own.
// include/gateway.h is the manual. A crate apart, since no crate can use a static library.
#![tactic(auto)]

ghost use Rattle.std.specs.Prelude.{◌≡◌, length};
ghost use Rattle.lent.specs.Calls.{fresh_result, fresh_state, close_result, close_state, start_result, start_state};
ghost use Rattle.lent.specs.Calls.{state_result, arrived_result, width_result};
ghost use Rattle.lent.specs.Calls.{fresh_loads, close_loads, start_loads, data_loads, alert_loads, receive_loads};
ghost use Rattle.lent.specs.Saved.{loaded};
ghost use Rattle.lent.specs.Calls.{data_result, data_state, data_out, alert_result, alert_state, alert_out};
ghost use Rattle.lent.specs.Calls.{receive_result, receive_state, receive_tally, receive_answers, receive_out};
ghost use Rattle.lent.specs.Macs.{mac_result, mac_out};
ghost use Rattle.lentshort.specs.Saved.{loaded_gatherer};
ghost use Rattle.lentshort.specs.Calls.{empty_result, empty_bytes, empty_loads, drop_result, drop_bytes, drop_loads, held_result};
ghost use Rattle.lentshort.specs.Gathered.{keeps, gather_keeps, gather_loads};
ghost use Rattle.lentshort.specs.Message.{hears, leaves, message_leaves, connection_loads, gatherer_loads};

// A fresh connection of a planted session, with a window of this width, 32 to 64, in 940 bytes. Refusal: 16.
#[unsafe(no_mangle)]
pub extern "C" fn gateway_fresh(id: &[u8], secret: &[u8], width: u32, state: &mut [u8]) -> u64
    ensures exact { result ≡ fresh_result id.now secret.now width (length state.old) }
    ensures bytes { state.new ≡ fresh_state id.now secret.now width
        state.old }
    ensures loads { loaded state.new ≡ fresh_loads id.now secret.now width
        state.old }
{
    lent::fresh(id, secret, width, state)
}

// Takes a datagram, our random for a new reply, and room of at least 128 bytes for it. Afterwards the first bytes of
// `out` are a reply to send, if any; `answers` holds an answer for each record; the tally is up to date. Refusals of
// the whole: 16, 6, 1 to 5.
#[unsafe(no_mangle)]
pub extern "C" fn gateway_receive(
    state: &mut [u8],
    tally: &mut [u8],
    datagram: &[u8],
    random: &[u8],
    out: &mut [u8],
    answers: &mut [u8],
) -> u64
    ensures exact { result ≡ receive_result state.old tally.old answers.old
        datagram.now random.now (length out.old) }
    ensures connection { state.new ≡ receive_state state.old tally.old
        answers.old datagram.now random.now (length out.old) }
    ensures counted { tally.new ≡ receive_tally state.old tally.old
        answers.old datagram.now random.now (length out.old) }
    ensures bytes { out.new ≡ receive_out state.old tally.old answers.old
        datagram.now random.now out.old }
    ensures answered { answers.new ≡ receive_answers state.old tally.old
        answers.old datagram.now random.now (length out.old) }
    ensures loads { loaded state.new ≡ receive_loads state.old tally.old
        answers.old datagram.now random.now (length out.old) }
{
    lent::receive(state, tally, datagram, random, out, answers)
}

// Sends 1 to 1,300 bytes of data in Open. Refusals: 16, 7, 8, 15, 6.
#[unsafe(no_mangle)]
pub extern "C" fn gateway_send_data(state: &mut [u8], data: &[u8], out: &mut [u8]) -> u64
    ensures exact { result ≡ data_result state.old «data».now (length out.old) }
    ensures connection { state.new ≡ data_state state.old «data».now
        (length out.old) }
    ensures bytes { out.new ≡ data_out state.old «data».now out.old }
    ensures loads { loaded state.new ≡ data_loads state.old «data».now
        (length out.old) }
{
    lent::send_data(state, data, out)
}

// Sends an alert, clear (0) or protected (1), with the checksum of the record that it answers. Refusals: 16, 7, 8, 15,
// 6.
#[unsafe(no_mangle)]
pub extern "C" fn gateway_send_alert(
    state: &mut [u8],
    protected: u32,
    level: u32,
    description: u32,
    answered: &[u8],
    out: &mut [u8],
) -> u64
    ensures exact { result ≡ alert_result state.old protected level description
        answered.now (length out.old) }
    ensures connection { state.new ≡ alert_state state.old protected level description
        answered.now (length out.old) }
    ensures bytes { out.new ≡ alert_out state.old protected level description
        answered.now out.old }
    ensures loads { loaded state.new ≡ alert_loads state.old protected level description
        answered.now (length out.old) }
{
    lent::send_alert(state, protected, level, description, answered, out)
}

// Close leads anywhere but Barred to Closed. Refusals: 16, 7.
#[unsafe(no_mangle)]
pub extern "C" fn gateway_close(state: &mut [u8]) -> u64
    ensures exact { result ≡ close_result state.old }
    ensures bytes { state.new ≡ close_state state.old }
    ensures loads { loaded state.new ≡ close_loads state.old }
{
    lent::close(state)
}

// Start again leads from Closed to Idle. Refusals: 16, 7, 8.
#[unsafe(no_mangle)]
pub extern "C" fn gateway_start(state: &mut [u8]) -> u64
    ensures exact { result ≡ start_result state.old }
    ensures bytes { state.new ≡ start_state state.old }
    ensures loads { loaded state.new ≡ start_loads state.old }
{
    lent::start(state)
}

// The number of the state that the connection is in. Refusal: 16, where the bytes are no saved connection.
#[unsafe(no_mangle)]
pub extern "C" fn gateway_state(state: &[u8]) -> u64
    ensures exact { result ≡ state_result state.now }
{
    lent::state(state)
}

// The arrival report: how many of the newest numbers have arrived, as many as the width says. Refusal: 16, where the
// bytes are no saved connection.
#[unsafe(no_mangle)]
pub extern "C" fn gateway_arrived(state: &[u8]) -> u64
    ensures exact { result ≡ arrived_result state.now }
{
    lent::arrived(state)
}

// The width of the connection's window. Refusal: 16, where the bytes are no saved connection.
#[unsafe(no_mangle)]
pub extern "C" fn gateway_width(state: &[u8]) -> u64
    ensures exact { result ≡ width_result state.now }
{
    lent::width(state)
}

// What edition 1 or 2 of the list of MAC kinds says of a number: its name at the front of `out`, its sizes as the count.
// Refusals: 16, 6.
#[unsafe(no_mangle)]
pub extern "C" fn gateway_mac(edition: u32, number: u32, out: &mut [u8]) -> u64
    ensures exact { result ≡ mac_result edition number (length out.old) }
    ensures bytes { out.new ≡ mac_out edition number out.old }
{
    lent::mac(edition, number, out)
}

// An empty gatherer in 5,700 bytes: no reference is held. Refusal: 16.
#[unsafe(no_mangle)]
pub extern "C" fn gateway_gatherer(gatherer: &mut [u8]) -> u64
    ensures exact { result ≡ empty_result (length gatherer.old) }
    ensures bytes { gatherer.new ≡ empty_bytes gatherer.old }
    ensures loads { loaded_gatherer gatherer.new ≡ empty_loads gatherer.old }
{
    lentshort::empty(gatherer)
}

// A reference dropped, 0 to 255; one not held changes nothing. Refusal: 16.
#[unsafe(no_mangle)]
pub extern "C" fn gateway_drop(gatherer: &mut [u8], reference: u32) -> u64
    ensures exact { result ≡ drop_result gatherer.old reference }
    ensures bytes { gatherer.new ≡ drop_bytes gatherer.old reference }
    ensures loads { loaded_gatherer gatherer.new ≡ drop_loads gatherer.old reference }
{
    lentshort::drop_reference(gatherer, reference)
}

// What a slot, 0 to 3, holds: how many places have come, and the total and the reference as the count. Refusal: 16.
#[unsafe(no_mangle)]
pub extern "C" fn gateway_held(gatherer: &[u8], slot: u32) -> u64
    ensures exact { result ≡ held_result gatherer.now slot }
{
    lentshort::held(gatherer, slot)
}

// Gathers a short message, whatever connection its datagram is for: `said` tells what became of it, and where the datagram that it
// shows stands. Refusals: 16, 6, 19 to 22.
#[unsafe(no_mangle)]
pub extern "C" fn gateway_gather(
    gatherer: &mut [u8],
    bytes: &[u8],
    assembly: &mut [u8],
    said: &mut [u8],
) -> u64
    ensures exact { keeps result gatherer.new assembly.new said.new
        ≡ gather_keeps gatherer.old bytes.now assembly.old said.old }
    ensures loads { loaded_gatherer gatherer.new ≡ gather_loads gatherer.old bytes.now
        assembly.old said.old }
{
    lentshort::gather_message(gatherer, bytes, assembly, said)
}

// Takes a short message: it is gathered, and the datagram that it then shows is received. `said` tells what became of it; the
// rest is as for a receive. Refusals of the message: 16, 6, 19 to 22; of the datagram that is shown: 1 to 5.
#[unsafe(no_mangle)]
pub extern "C" fn gateway_message(
    state: &mut [u8],
    tally: &mut [u8],
    gatherer: &mut [u8],
    bytes: &[u8],
    assembly: &mut [u8],
    random: &[u8],
    said: &mut [u8],
    out: &mut [u8],
    answers: &mut [u8],
) -> u64
    ensures exact { leaves (hears result state.new tally.new out.new answers.new)
        gatherer.new assembly.new said.new
        ≡ message_leaves state.old tally.old gatherer.old bytes.now
        assembly.old random.now said.old out.old answers.old }
    ensures loads { loaded state.new ≡ connection_loads state.old tally.old
        gatherer.old bytes.now assembly.old random.now said.old
        out.old answers.old }
    ensures gathers { loaded_gatherer gatherer.new ≡ gatherer_loads state.old tally.old
        gatherer.old bytes.now assembly.old random.now said.old
        out.old answers.old }
{
    lentshort::message(
        state, tally, gatherer, bytes, assembly, random, said, out, answers,
    )
}
