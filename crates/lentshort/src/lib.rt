// Short messages on lent bytes (02, P2): the gatherer lives in bytes which the caller lends, as the connection does in `lent`, and
// the datagram that a message shows goes to `lent`'s receive. Nothing is kept between calls, and no call has a `requires`: what is
// lent is tested. The crate `gateway` exports the calls to C and Rust.
#![tactic(auto)]

ghost use Rattle.std.specs.Prelude.{◌≡◌, length};
ghost use Rattle.lent.specs.Saved.{loaded};
ghost use Rattle.lentshort.specs.Saved.{loaded_gatherer};
ghost use Rattle.lentshort.specs.Calls.{empty_result, empty_bytes, empty_loads, drop_result, drop_bytes, drop_loads, held_result};
ghost use Rattle.lentshort.specs.Gathered.{keeps, gather_keeps, gather_loads};
ghost use Rattle.lentshort.specs.Message.{hears, leaves, message_leaves, connection_loads, gatherer_loads};

mod load;
mod said;
mod save;
mod step;
mod taken;

use gather::Gatherer;
use lent::result_of;
use load::{gatherer_in, is_gatherer, lent_to, lent_to_gather, slot_in};
use said::put_said;
use save::{SIZE, put_gatherer};
use step::stepped;
use taken::{take, unshown};

// An empty gatherer in 5,700 bytes: no reference is held. Refusal: 16.
pub fn empty(gatherer: &mut [u8]) -> u64
    ensures exact { result ≡ empty_result (length gatherer.old) }
    ensures bytes { gatherer.new ≡ empty_bytes gatherer.old }
    ensures loads { loaded_gatherer gatherer.new ≡ empty_loads gatherer.old }
{
    if gatherer.len() != SIZE {
        return result_of(16, 0, 0);
    }
    put_gatherer(gatherer, Gatherer::fresh());
    result_of(0, 0, 0)
}

// A reference dropped, 0 to 255; one not held changes nothing. Refusal: 16.
pub fn drop_reference(gatherer: &mut [u8], reference: u32) -> u64
    ensures exact { result ≡ drop_result gatherer.old reference }
    ensures bytes { gatherer.new ≡ drop_bytes gatherer.old reference }
    ensures loads { loaded_gatherer gatherer.new ≡ drop_loads gatherer.old reference }
{
    if 255 < reference {
        return result_of(16, 0, 0);
    }
    if is_gatherer(gatherer) {
        let mut g = gatherer_in(gatherer);
        g.drop(reference as u8);
        put_gatherer(gatherer, g);
        return result_of(0, 0, 0);
    }
    result_of(16, 0, 0)
}

// What a slot, 0 to 3, holds: how many places have come, and the total and the reference as the count. Refusal: 16.
pub fn held(gatherer: &[u8], slot: u32) -> u64
    ensures exact { result ≡ held_result gatherer.now slot }
{
    if 3 < slot {
        return result_of(16, 0, 0);
    }
    if is_gatherer(gatherer) {
        let s = slot_in(gatherer, 4 + 24 * (slot as usize));
        let total = s.total as usize;
        let reference = s.reference as usize;
        return result_of(0, s.held_places(), total * 256 + reference);
    }
    result_of(16, 0, 0)
}

// Gathers a short message, whatever connection its datagram is for: `said` tells what became of it, and where the datagram that it
// shows stands. Refusals: 16, 6, 19 to 22.
pub fn gather_message(
    gatherer: &mut [u8],
    bytes: &[u8],
    assembly: &mut [u8],
    said: &mut [u8],
) -> u64
    ensures exact { keeps result gatherer.new assembly.new said.new
        ≡ gather_keeps gatherer.old bytes.now assembly.old said.old }
    ensures loads { loaded_gatherer gatherer.new ≡ gather_loads gatherer.old bytes.now
        assembly.old said.old }
{
    if lent_to_gather(gatherer, said.len()) {
        let answer = stepped(gatherer, bytes, assembly);
        put_said(said, answer);
        return result_of(unshown(answer), 0, 0);
    }
    result_of(16, 0, 0)
}

// Takes a short message: it is gathered, and the datagram that it then shows is received. `said` tells what became of it; the
// rest is as for a receive. Refusals of the message: 16, 6, 19 to 22; of the datagram that is shown: 1 to 5.
pub fn message(
    state: &mut [u8],
    tally: &mut [u8],
    gatherer: &mut [u8],
    bytes: &[u8],
    assembly: &mut [u8],
    random: &[u8],
    said: &mut [u8],
    out: &mut [u8],
    answers: &mut [u8],
) -> u64
    ensures exact { leaves (hears result state.new tally.new out.new answers.new)
        gatherer.new assembly.new said.new
        ≡ message_leaves state.old tally.old gatherer.old bytes.now
        assembly.old random.now said.old out.old answers.old }
    ensures loads { loaded state.new ≡ connection_loads state.old tally.old
        gatherer.old bytes.now assembly.old random.now said.old
        out.old answers.old }
    ensures gathers { loaded_gatherer gatherer.new ≡ gatherer_loads state.old tally.old
        gatherer.old bytes.now assembly.old random.now said.old
        out.old answers.old }
{
    if random.len() != 16 {
        return result_of(16, 0, 0);
    }
    if lent_to(state, tally.len(), answers.len(), gatherer, said.len()) {
        if out.len() < 128 {
            return result_of(6, 0, 0);
        }
        let answer = stepped(gatherer, bytes, assembly);
        put_said(said, answer);
        return take(answer, state, tally, bytes, assembly, random, out, answers);
    }
    result_of(16, 0, 0)
}
