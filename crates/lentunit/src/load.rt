// Loading: a unit from the bytes that hold it.
ghost use Rattle.std.specs.Prelude.{◌≡◌, length};
ghost use Rattle.lentunit.specs.Saved.{unit_size, is_saved, is_unit, state_numbered, kinds_numbered, offer_in, window_in, unit_in};
ghost use Rattle.lentunit.specs.Calls.{lent_for};

use crate::save::{MARK, SIZE};
use lent::{bytes_within, four_within, protection_in, sent_within};
use message::offer::{Kinds, Offer};
use record::window::Window;
use unit::state::State;
use unit::unit::Unit;

// Whether bytes are a saved unit: the size, the mark, a state, kinds offered, a MAC kind. Nothing else in them can be wrong.
pub(crate) fn is_saved(b: &[u8]) -> bool
    ensures { result ≡ is_saved b.now }
{
    if b.len() != SIZE || four_within(b, 0) != MARK {
        return false;
    }
    is_unit(b)
}

// Whether bytes of this size are a unit: a state, kinds offered, a MAC kind.
fn is_unit(b: &[u8]) -> bool
    requires { length b.now ≡ unit_size }
    ensures { result ≡ is_unit b.now }
{
    b[40] <= 7 && b[115] <= 3 && (b[101] == 2 || b[101] == 3)
}

// Whether what is lent to a receive has its sizes, and the bytes are a saved unit.
#[tactic(auto, unfolding(crate::specs::Calls::lent_for))]
pub(crate) fn lent_for(state: &[u8], counts: usize, places: usize) -> bool
    ensures { result ≡ lent_for state.now counts places }
{
    counts == 16 && places == 192 && is_saved(state)
}

// The unit that the bytes hold.
pub(crate) fn unit_in(b: &[u8]) -> Unit
    requires { length b.now ≡ unit_size }
    ensures { result ≡ unit_in b.now }
{
    Unit {
        state: state_numbered(b[40]),
        id: bytes_within(b, 41),
        offer: offer_in(b),
        expected: bytes_within(b, 103),
        flight: bytes_within(b, 117),
        sent: sent_within(b),
        protection: protection_in(bytes_within(b, 49), bytes_within(b, 161)),
    }
}

#[tactic(auto, unfolding(crate::specs::Saved::state_numbered))]
fn state_numbered(n: u8) -> State
    ensures { result ≡ state_numbered n }
{
    match n {
        0 => State::Idle,
        1 => State::Sent,
        2 => State::Replied,
        3 => State::Spec,
        4 => State::Opening,
        5 => State::Open,
        6 => State::Closed,
        _ => State::Barred,
    }
}

#[tactic(auto, unfolding(crate::specs::Saved::kinds_numbered))]
fn kinds_numbered(n: u8) -> Kinds
    ensures { result ≡ kinds_numbered n }
{
    match n {
        0 => Kinds::Sha80,
        1 => Kinds::Sha,
        2 => Kinds::Sha80First,
        _ => Kinds::ShaFirst,
    }
}

fn offer_in(b: &[u8]) -> Offer
    requires { length b.now ≡ unit_size }
    ensures { result ≡ offer_in b.now }
{
    Offer {
        kinds: kinds_numbered(b[115]),
        refresh: b[116],
    }
}

pub(crate) fn window_in(b: &[u8]) -> Window
    requires { length b.now ≡ unit_size }
    ensures { result ≡ window_in b.now }
{
    lent::window_in(bytes_within(b, 161))
}
