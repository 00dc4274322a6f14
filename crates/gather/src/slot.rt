// One reference that is being gathered: its total, and how many bytes each of its eleven places has. The bytes themselves
// stand joined, by place, at the front of the slot's 1,400 bytes of the store.
ghost use Rattle.std.specs.Prelude.{◌≡◌, ◌≤◌, ◌<◌};
ghost use Rattle.gather.specs.Slot.{free, begun, holds, count_of, below, sized};

// A slot with total 0 is free. A size of 0: the place is not held; n + 1: it is held, with n bytes. Every value is safe to
// use: sizes that pass the 1,400 bytes count up to them. Numbers and no Option: a slot is its bytes in `lentshort`, whose
// `put_gatherer` and `gatherer_there` give back every value and every byte, those of free slots too.
#[derive(Clone, Copy, PartialEq, Eq, Debug)]
pub struct Slot {
    pub reference: u8,
    pub total: u8,
    pub sizes: [u16; 11],
}

impl Slot {
    // A free slot.
    pub(crate) fn free() -> Slot
        ensures { result ≡ free }
    {
        Slot {
            reference: 0,
            total: 0,
            sizes: [0; 11],
        }
    }

    // A slot for a new reference.
    pub(crate) fn begun(reference: u8, total: u8) -> Slot
        ensures { result ≡ begun reference total }
    {
        Slot {
            reference,
            total,
            sizes: [0; 11],
        }
    }

    // Whether the slot holds this reference.
    pub(crate) fn holds(&self, reference: u8) -> bool
        ensures { result ≡ holds self.now reference }
    {
        self.total != 0 && self.reference == reference
    }

    // How many bytes the first n places have together; 1,400 at most.
    pub(crate) fn bytes_below(&self, n: usize) -> usize
        requires { n ≤ 11 }
        ensures value { result ≡ below self.now n }
        ensures at_most { result ≤ 1400 }
    {
        let sum: usize = self.sizes[..n]
            .iter()
            .map(|&size| usize::from(size.saturating_sub(1)))
            .sum();
        sum.min(1400)
    }

    // How many places of a slot are held: eleven at most.
    pub fn held_places(&self) -> usize
        ensures exact { result ≡ count_of self.now.sizes }
        ensures at_most { result ≤ 11 }
    {
        self.sizes.iter().filter(|&&size| size != 0).count()
    }

    // The slot with n bytes in place i, counted from 0.
    pub(crate) fn with_size(self, i: usize, n: usize) -> Slot
        requires { (i < 11) × (n ≤ 1400) }
        ensures { result ≡ sized self i n }
    {
        let mut sizes = self.sizes;
        sizes[i] = (n + 1) as u16;
        Slot { sizes, ..self }
    }
}
