// Saving: a gatherer laid into its bytes, in front of its store.
ghost use Rattle.std.specs.Prelude.{◌≡◌, ◌+◌, ◌≤◌, length};
ghost use Rattle.digest.specs.Bytes.{laid_over};
ghost use Rattle.lentshort.specs.Saved as S;
ghost use Rattle.lentshort.specs.Saved.{gatherer_size, saved_gatherer, slot_bytes, store_in, loaded_gatherer, Is, SlotRanged};

use digest::put;
use gather::{Gatherer, Slot};

// How many bytes hold a gatherer.
pub(crate) const SIZE: usize = 5700;

// "WTS", and 1 for this layout.
pub(crate) fn mark() -> [u8; 4]
    ensures { result ≡ S.mark }
{
    [0x57, 0x54, 0x53, 1]
}

// The gatherer, over all the bytes before the store.
pub(crate) fn put_gatherer(d: &mut [u8], g: Gatherer)
    requires { length d.old ≡ gatherer_size }
    ensures d_after { d.new ≡ saved_gatherer g (store_in d.old) }
    ensures d_after_2 { loaded_gatherer d.new ≡ Is g (store_in d.old) }
{
    put(d, 0, &mark());
    for (k, slot) in g.slots.iter().enumerate() {
        put_slot(d, 4 + 24 * k, *slot);
    }
}

fn put_slot(d: &mut [u8], at: usize, s: Slot)
    requires { at + 24 ≤ length d.old }
    ensures d_after { d.new ≡ laid_over d.old at (slot_bytes s) }
    ensures slot_ranged { SlotRanged s }
{
    put(d, at, &[s.reference, s.total]);
    for (i, size) in s.sizes.iter().enumerate() {
        put(d, at + 2 + 2 * i, &size.to_be_bytes());
    }
}
