// The tally in its 16 bytes.
ghost use Rattle.std.specs.Prelude.{◌≡◌, length};
ghost use Rattle.lent.specs.Counts.{tally_bytes, tally_in, tally_within, tally_laid};

use crate::bytes::{four, four_within};
use connection::tally::Tally;
use digest::put;

// The tally of bytes of any size: a fresh one where they are not 16.
pub fn tally_within(b: &[u8]) -> Tally
    ensures exact { result ≡ tally_within b.now }
{
    if b.len() != 16 {
        return Tally::fresh();
    }
    tally_in(b)
}

// A tally over all the bytes, where they are 16; else nothing is written.
pub fn lay_tally(d: &mut [u8], tally: Tally)
    ensures exact { d.new ≡ tally_laid d.old tally }
{
    if d.len() != 16 {
        return;
    }
    put_tally(d, tally);
}

pub(crate) fn tally_in(b: &[u8]) -> Tally
    requires { length b.now ≡ 16 }
    ensures { result ≡ tally_in b.now }
{
    Tally {
        handed: four_within(b, 0),
        forged: four_within(b, 4),
        old: four_within(b, 8),
        repeated: four_within(b, 12),
    }
}

pub(crate) fn put_tally(d: &mut [u8], tally: Tally)
    requires { length d.old ≡ 16 }
    ensures { d.new ≡ tally_bytes tally }
{
    let handed = four(tally.handed);
    put(d, 0, &handed);
    let forged = four(tally.forged);
    put(d, 4, &forged);
    let old = four(tally.old);
    put(d, 8, &old);
    let repeated = four(tally.repeated);
    put(d, 12, &repeated);
}
