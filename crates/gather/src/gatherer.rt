// The gatherer of parts: up to eleven parts for a reference, four references at once, 1,400 bytes each. Its numbers go by
// value; the bytes of the parts stand in a store that the caller lends to each step, and a gathered datagram is written to
// the assembly buffer.
ghost use Rattle.std.specs.Prelude.{◌≡◌, ◌≤◌, ◌<◌, length, IfSome};
ghost use Rattle.gather.specs.Answer.{again_of, datagram_of};

use crate::header::{Heading, Place, Ports, read};
use crate::refusal::Refusal;
use crate::slot::Slot;
use crate::spot::Spot;

// Four slots. Slot k has the bytes k * 1,400 up to (k + 1) * 1,400 of the store.
#[derive(Clone, Copy, PartialEq, Eq, Debug)]
pub struct Gatherer {
    pub slots: [Slot; 4],
    pub ghost four: { length slots ≡ 4 },
}

// What a message that is not refused comes to.
#[derive(Clone, Copy, PartialEq, Eq, Debug)]
pub enum Answer {
    // the reference, how many places are held, and the total
    Waiting(Ports, u8, usize, u8),
    // where the datagram begins in the message
    Received(Ports, usize),
    // how many bytes of the assembly buffer are the datagram
    Gathered(Ports, usize),
}

// A part of a message: what the header says of it, and its bytes.
#[derive(Clone, Copy)]
struct Part<'a> {
    ports: Ports,
    place: Place,
    bytes: &'a [u8],
}

impl Gatherer {
    ghost use Rattle.gather.specs.Gatherer.{fresh_of, held_at, vacant_at, drop_of, leaves, add_of, join_of, step_of};

    // No reference held.
    pub fn fresh() -> Gatherer
        ensures exact { result ≡ fresh_of }
    {
        Gatherer {
            slots: [Slot::free(); 4],
        }
    }

    // The reference dropped; one not held changes nothing.
    pub fn drop(&mut self, reference: u8)
        ensures exact { self.new ≡ drop_of self.old reference }
    {
        if let Some(k) = self.held(reference) {
            self.slots[k] = Slot::free();
        }
    }

    // One short message: 16, 6, 19 to 22.
    pub fn step(
        &mut self,
        store: &mut [u8],
        message: &[u8],
        assembly: &mut [u8],
    ) -> Result<Answer, Refusal>
        ensures exact { leaves self.new result store.new assembly.new ≡ step_of self.old store.old message.now assembly.old }
    {
        if store.len() < 5600 {
            return Err(Refusal::Argument);
        }
        if assembly.len() < 1400 {
            return Err(Refusal::Room);
        }
        match read(message)? {
            Heading::Alone(ports, start) => Ok(Answer::Received(ports, start)),
            Heading::Part(ports, start, place) => {
                let bytes = &message[start..];
                self.join(
                    Part {
                        ports,
                        place,
                        bytes,
                    },
                    store,
                    assembly,
                )
            }
        }
    }

    // The part of a reference, held or new.
    fn join(
        &mut self,
        part: Part<'_>,
        store: &mut [u8],
        assembly: &mut [u8],
    ) -> Result<Answer, Refusal>
        requires { (5600 ≤ length store.old) × (1400 ≤ length assembly.old) × (0 < part.place.place) × (part.place.place ≤ 11) }
        ensures { leaves self.new result store.new assembly.new ≡ join_of self.old store.old part.entry.bytes.now part.entry.ports part.entry.place assembly.old }
    {
        let place = part.place;
        let i = usize::from(place.place) - 1;
        if let Some(k) = self.held(place.reference) {
            let slot = self.slots[k];
            if slot.total != place.total {
                return Err(Refusal::Differs);
            }
            return self.add(Spot { k, slot, i }, part, store, assembly);
        }
        let Some(k) = self.vacant() else {
            return Err(Refusal::Full);
        };
        let slot = Slot::begun(place.reference, place.total);
        self.add(Spot { k, slot, i }, part, store, assembly)
    }

    // The part where it belongs.
    fn add(
        &mut self,
        at: Spot,
        part: Part<'_>,
        store: &mut [u8],
        assembly: &mut [u8],
    ) -> Result<Answer, Refusal>
        requires { (5600 ≤ length store.old) × (1400 ≤ length assembly.old) }
        ensures { leaves self.new result store.new assembly.new ≡ add_of self.old at.k at.slot at.i store.old part.entry.bytes.now part.entry.ports assembly.old }
    {
        let slot = at.slot;
        if slot.sizes[at.i] != 0 {
            return again(at, part, store);
        }
        if 1400 - slot.bytes_below(11) < part.bytes.len() {
            self.slots[at.k] = Slot::free();
            return Err(Refusal::Long);
        }
        let have = slot.held_places() + 1;
        if usize::from(slot.total) <= have {
            let size = at.assemble(store, part.bytes, assembly);
            self.slots[at.k] = Slot::free();
            return Ok(Answer::Gathered(part.ports, size));
        }
        at.insert(store, part.bytes);
        self.slots[at.k] = slot.with_size(at.i, part.bytes.len());
        Ok(Answer::Waiting(part.ports, slot.reference, have, slot.total))
    }

    // The first slot that holds the reference.
    fn held(&self, reference: u8) -> Option<usize>
        ensures value { result ≡ held_at self.now reference }
        ensures slot { IfSome result (λ k. k < 4) }
    {
        self.slots.iter().position(|s| s.holds(reference))
    }

    // The first slot that is free.
    fn vacant(&self) -> Option<usize>
        ensures value { result ≡ vacant_at self.now }
        ensures slot { IfSome result (λ k. k < 4) }
    {
        self.slots.iter().position(|s| s.total == 0)
    }
}

// The datagram that a step shows: a part of the message or of the assembly buffer. Of an answer that shows none, no bytes.
pub fn datagram<'a>(
    answer: Result<Answer, Refusal>,
    message: &'a [u8],
    assembly: &'a [u8],
) -> &'a [u8]
    ensures exact { result.now ≡ datagram_of answer message.now assembly.now }
{
    match answer {
        Ok(Answer::Received(_, start)) => message.get(start..).unwrap_or(&[]),
        Ok(Answer::Gathered(_, size)) => assembly.get(..size).unwrap_or(assembly),
        Ok(Answer::Waiting(_, _, _, _)) | Err(_) => &[],
    }
}

// A part whose place is held: the same bytes, or others.
fn again(at: Spot, part: Part<'_>, store: &[u8]) -> Result<Answer, Refusal>
    requires { 5600 ≤ length store.now }
    ensures { result ≡ again_of at.k at.slot at.i store.now part.entry.bytes.now part.entry.ports }
{
    if at.has(store, part.bytes) {
        let slot = at.slot;
        return Ok(Answer::Waiting(part.ports, slot.reference, slot.held_places(), slot.total));
    }
    Err(Refusal::Differs)
}
