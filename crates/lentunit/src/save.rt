// Saving: a unit laid into its bytes.
ghost use Rattle.std.specs.Prelude.{◌≡◌, length};
ghost use Rattle.digest.specs.Bytes.{laid_over};
ghost use Rattle.lent.specs.Fields.{joined};
ghost use Rattle.lentunit.specs.Saved.{unit_size, saved_of, loaded, Is, state_number, kinds_number, offer_fields};

use digest::put;
use lent::{agreed_bytes, four, lay_sent, session_bytes, standing_bytes};
use message::offer::{Kinds, Offer};
use unit::state::State;
use unit::unit::Unit;

// "WTU", and 1 for this layout.
pub(crate) const MARK: u32 = 0x57545501;

// How many bytes hold a unit.
pub(crate) const SIZE: usize = 180;

// The unit, over all the bytes.
pub(crate) fn put_unit(d: &mut [u8], u: Unit)
    requires { length d.old ≡ unit_size }
    ensures d_after { d.new ≡ saved_of u }
    ensures d_after_2 { loaded d.new ≡ Is u }
{
    let mark = four(MARK);
    put(d, 0, &mark);
    let sent = u.sent;
    lay_sent(d, sent);
    let protection = u.protection;
    let keys = protection.keys;
    put(
        d,
        40,
        &session_bytes(state_number(u.state), u.id, keys.secret),
    );
    put(d, 69, &agreed_bytes(keys, u.expected));
    put_offer(d, u.offer, u.flight);
    put(d, 161, &standing_bytes(protection));
}

fn state_number(state: State) -> u8
    ensures { result ≡ state_number state }
{
    match state {
        State::Idle => 0,
        State::Sent => 1,
        State::Replied => 2,
        State::Spec => 3,
        State::Opening => 4,
        State::Open => 5,
        State::Closed => 6,
        State::Barred => 7,
    }
}

// (Kinds and State are other crates', so `From` cannot stand here.)
fn kinds_number(kinds: Kinds) -> u8
    ensures { result ≡ kinds_number kinds }
{
    match kinds {
        Kinds::Sha80 => 0,
        Kinds::Sha => 1,
        Kinds::Sha80First => 2,
        Kinds::ShaFirst => 3,
    }
}

fn put_offer(d: &mut [u8], offer: Offer, flight: [u8; 44])
    requires { length d.old ≡ unit_size }
    ensures d_after { d.new ≡ laid_over d.old 115 (joined (offer_fields offer flight)) }
    ensures flight_len { length (joined (offer_fields offer flight)) ≡ 46 }
    ensures flight_len_2 { length flight ≡ 44 }
{
    let kinds = offer.kinds;
    let number = [kinds_number(kinds)];
    put(d, 115, &number);
    let refresh = [offer.refresh];
    put(d, 116, &refresh);
    put(d, 117, &flight);
}
