// Where a part belongs, and the bytes of its slot: those of the lower places, its own, and those of the higher ones.
ghost use Rattle.std.specs.Prelude.{◌≡◌, ◌++◌, ◌+◌, ◌-◌, ◌*◌, ◌≤◌, ◌<◌, length, take, drop};
ghost use Rattle.digest.specs.Bytes.{laid_over};
ghost use Rattle.digest.specs.Mac.{same_bytes};
ghost use Rattle.gather.specs.Slot.{below};
ghost use Rattle.gather.specs.Gatherer.{kept, lower, within, upper};

use crate::slot::Slot;

// Place i, counted from 0, of the slot, which is slot k and has the bytes from k * 1,400 on of the store.
#[derive(Clone, Copy)]
pub(crate) struct Spot {
    pub k: usize,
    pub slot: Slot,
    pub i: usize,
    ghost few: { k < 4 },
    ghost eleven: { i < 11 },
}

impl Spot {
    // Whether these are the bytes that stand in the place.
    pub(crate) fn has(&self, store: &[u8], part: &[u8]) -> bool
        requires { 5600 ≤ length store.now }
        ensures { result ≡ same_bytes (within store.now self.now.k self.now.slot self.now.i) part.now }
    {
        digest::same_code(self.kept(store, self.i, self.i + 1), part)
    }

    // The parts of the slot and this one, by place, at the front of the assembly buffer. Answers how many bytes they are.
    pub(crate) fn assemble(&self, store: &[u8], part: &[u8], assembly: &mut [u8]) -> usize
        requires { (5600 ≤ length store.now) × (1400 ≤ length assembly.old) × (length part.now ≤ 1400 - below self.now.slot 11) }
        ensures value { result ≡ below self.now.slot 11 + length part.now }
        ensures assembly_after { assembly.new ≡ laid_over assembly.old 0
            (lower store.now self.now.k self.now.slot self.now.i ++ part.now ++ upper store.now self.now.k self.now.slot self.now.i) }
    {
        let lower = self.kept(store, 0, self.i);
        let upper = self.kept(store, self.i, 11);
        digest::put(assembly, 0, lower);
        digest::put(assembly, lower.len(), part);
        digest::put(assembly, lower.len() + part.len(), upper);
        lower.len() + part.len() + upper.len()
    }

    // The part put between those of the lower places and those of the higher ones.
    pub(crate) fn insert(&self, store: &mut [u8], part: &[u8])
        requires { (5600 ≤ length store.old) × (length part.now ≤ 1400 - below self.now.slot 11) }
        ensures { store.new ≡ laid_over store.old (self.now.k * 1400 + below self.now.slot self.now.i)
            (part.now ++ upper store.old self.now.k self.now.slot self.now.i) }
    {
        let from = self.begin(self.i);
        shift(store, from, self.begin(11), part.len());
        digest::put(store, from, part);
    }

    // The bytes of the slot from one place up to another.
    fn kept<'a>(&self, store: &'a [u8], from: usize, to: usize) -> &'a [u8]
        requires { (5600 ≤ length store.now) × (from ≤ to) × (to ≤ 11) }
        ensures { result.now ≡ kept store.now self.now.k (below self.now.slot from) (below self.now.slot to) }
    {
        &store[self.begin(from)..self.begin(to)]
    }

    // Where in the store the bytes of a place begin.
    fn begin(&self, place: usize) -> usize
        requires { place ≤ 11 }
        ensures value { result ≡ self.now.k * 1400 + below self.now.slot place }
        ensures at_most { result ≤ 5600 }
    {
        self.k * 1400 + self.slot.bytes_below(place)
    }
}

// The bytes from `from` up to `end` moved up by n, the last of them first, n at a time: so many do not reach into where they go, and
// the archive needs no memmove.
fn shift(d: &mut [u8], from: usize, end: usize, n: usize)
    requires { (from ≤ end) × (end + n ≤ length d.old) }
    ensures { d.new ≡ laid_over d.old (from + n) (take (end - from) (drop from d.old)) }
{
    if n == 0 {
        return;
    }
    let mut i = end;
    while from < i {
        let m = n.min(i - from);
        let (low, high) = d.split_at_mut(i);
        digest::put(high, n - m, &low[i - m..]);
        i -= m;
    }
}
