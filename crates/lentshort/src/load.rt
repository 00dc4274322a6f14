// Loading: a gatherer from the bytes that hold it.
ghost use Rattle.std.specs.Prelude.{◌≡◌, ◌+◌, ◌*◌, ◌≤◌, length};
ghost use Rattle.lent.specs.Fields.{two_in};
ghost use Rattle.lentshort.specs.Saved.{gatherer_size, is_gatherer, gatherer_in, slot_in};
ghost use Rattle.lentshort.specs.Gathered.{lent_to_gather};
ghost use Rattle.lentshort.specs.Message.{lent_to};

use crate::said::SAID;
use crate::save::{SIZE, mark};
use gather::{Gatherer, Slot};
use lent::lent_for;
use std::array;

// Whether bytes are a saved gatherer: the size and the mark. Nothing else in them can be wrong.
pub(crate) fn is_gatherer(b: &[u8]) -> bool
    ensures { result ≡ is_gatherer b.now }
{
    if b.len() != SIZE {
        return false;
    }
    digest::same_code(&b[..4], &mark())
}

// Whether what is lent to a message has its sizes, the bytes are a saved connection, and the others a saved gatherer.
pub(crate) fn lent_to(
    state: &[u8],
    counts: usize,
    places: usize,
    gatherer: &[u8],
    saying: usize,
) -> bool
    ensures { result ≡ lent_to state.now counts places gatherer.now saying }
{
    if lent_to_gather(gatherer, saying) {
        return lent_for(state, counts, places);
    }
    false
}

// Whether what is lent to a gathering has its size, and the bytes are a saved gatherer.
pub(crate) fn lent_to_gather(gatherer: &[u8], saying: usize) -> bool
    ensures { result ≡ lent_to_gather gatherer.now saying }
{
    if saying != SAID {
        return false;
    }
    is_gatherer(gatherer)
}

// The gatherer that the bytes hold.
pub(crate) fn gatherer_in(b: &[u8]) -> Gatherer
    requires { length b.now ≡ gatherer_size }
    ensures { result ≡ gatherer_in b.now }
{
    Gatherer {
        slots: array::from_fn(|k| nth_slot(b, k)),
    }
}

// The slot behind so many others, which stand behind the mark.
fn nth_slot(b: &[u8], k: usize) -> Slot
    requires { 4 + 24 * k + 24 ≤ length b.now }
    ensures { result ≡ slot_in b.now (4 + 24 * k) }
{
    slot_in(b, 4 + 24 * k)
}

// The slot whose bytes begin at a place.
pub(crate) fn slot_in(b: &[u8], at: usize) -> Slot
    requires { at + 24 ≤ length b.now }
    ensures { result ≡ slot_in b.now at }
{
    Slot {
        reference: b[at],
        total: b[at + 1],
        sizes: array::from_fn(|i| nth_size(b, at, i)),
    }
}

// The size behind so many others of the slot whose bytes begin at a place.
fn nth_size(b: &[u8], at: usize, i: usize) -> u16
    requires { at + 2 + 2 * i + 2 ≤ length b.now }
    ensures { result ≡ two_in b.now (at + 2 + 2 * i) }
{
    size_in(b, at + 2 + 2 * i)
}

fn size_in(b: &[u8], at: usize) -> u16
    requires { at + 2 ≤ length b.now }
    ensures { result ≡ two_in b.now at }
{
    u16::from_be_bytes([b[at], b[at + 1]])
}
