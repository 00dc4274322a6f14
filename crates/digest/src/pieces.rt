// SHA-1 over messages that come in pieces (FIPS 180-1).
ghost use Rattle.std.specs.Prelude.{◌≡◌, ℕ, ◌+◌, ◌/◌, ◌%◌, ◌<◌, ◌≤◌, List, ◌++◌, length, take, replicate};
ghost use Rattle.digest.specs.Bytes.{laid_over};
ghost use Rattle.digest.specs.Sha1 as Sha1;
ghost use Rattle.digest.specs.Sha1.{absorb, blocks_of, padding};
ghost use Rattle.digest.specs.Hasher.{fresh_hasher, updated, finished, Absorbed};

use crate::block::{State, absorbed, initial};
use crate::bytes::{lay, put_word};

// A message that comes in pieces: the bytes behind its whole blocks at the front of `rest`, how many bytes came,
// modulo 2^64, and the state after the whole blocks. Every value of it is safe to use: how much of `rest` counts
// follows from the count. (In this order of the fields less stack is taken, docs/SPEED.md.)
#[derive(Clone, Copy)]
pub struct Hasher {
    pub rest: [u8; 64],
    pub count: u64,
    pub state: State,
}

impl Hasher {
    // No byte yet.
    pub fn new() -> Hasher
        ensures exact { result ≡ fresh_hasher }
    {
        Hasher {
            state: initial(),
            rest: [0; 64],
            count: 0,
        }
    }

    // The piece s behind what came before. Whole blocks are taken straight from s.
    pub fn update(self, s: &[u8]) -> Hasher
        ensures exact { result ≡ updated self s.now }
        ensures meaning { (m : List ℕ) → Absorbed self m → Absorbed result (m ++ s.now) }
    {
        let fill = (self.count % 64) as usize;
        let mut rest = self.rest;
        let state = self.state;
        let count = std::num::wrapping_add_u64(self.count, s.len() as u64);
        if s.len() < 64 - fill {
            lay(&mut rest, fill, s);
            return Hasher { state, rest, count };
        }
        let need = (64 - fill) % 64;
        let done = need + 64 * ((s.len() - need) / 64);
        let front = topped(state, rest, fill, s);
        let all = absorbed(front, &s[need..]);
        lay(&mut rest, 0, &s[done..]);
        Hasher {
            state: all,
            rest,
            count,
        }
    }

    // The digest of all that came.
    pub fn finish(self) -> [u8; 20]
        ensures exact { result ≡ finished self }
        ensures meaning { (m : List ℕ) → Absorbed self m → result ≡ Sha1.sha1 m }
    {
        let rest = self.rest;
        let state = self.state;
        let count = self.count;
        let fill = (count % 64) as usize;
        ending(state, &rest[..fill], count)
    }
}

// The digest of s: its whole blocks straight from it, and then what is left.
pub fn sha1(s: &[u8]) -> [u8; 20]
    ensures exact { result ≡ Sha1.sha1 s.now }
{
    let done = 64 * (s.len() / 64);
    let state = absorbed(initial(), s);
    ending(state, &s[done..], s.len() as u64)
}

// The state after the block that the first `fill` bytes of rest and the front of s make, if any wait in rest.
fn topped(h: State, rest: [u8; 64], fill: usize, s: &[u8]) -> State
    requires { (length rest ≡ 64) × (fill < 64) × (64 ≤ fill + length s.now) }
    ensures { result ≡ absorb (take fill rest ++ s.now) ((fill + 63) / 64) h }
{
    if fill == 0 {
        return h;
    }
    let mut block = rest;
    lay(&mut block, fill, &s[..64 - fill]);
    absorbed(h, &block)
}

// The digest from the state h on, with the bytes s left of `count` in all.
pub(crate) fn ending(h: State, s: &[u8], count: u64) -> [u8; 20]
    requires { length s.now ≡ count % 64 }
    ensures { result ≡ Sha1.spelled (absorb (s.now ++ padding count) (blocks_of (s.now ++ padding count)) h) }
{
    let mut d = [0u8; 128];
    lay(&mut d, 0, s);
    let last = closed(h, &mut d, s.len(), count);
    spelled(last)
}

// The state from h on, with `fill` bytes left of `count` in all, which stand at the front of d with zeros behind them:
// behind them a one, zeros, and the length in bits in the last eight bytes of a block.
pub(crate) fn closed(h: State, d: &mut [u8], fill: usize, count: u64) -> State
    requires { (length d.old ≡ 128) × (fill < 120) × (fill % 64 ≡ count % 64) }
    ensures { (m : List ℕ) → length m ≡ fill → d.old ≡ laid_over (replicate 128 0) 0 m → result ≡ absorb (m ++ padding count) (blocks_of (m ++ padding count)) h }
{
    d[fill] = 128;
    let end = 64 * ((fill + 72) / 64);
    let bits = count << 3;
    put_word(d, end - 8, (bits / 4294967296) as u32);
    put_word(d, end - 4, (bits % 4294967296) as u32);
    absorbed(h, &d[..end])
}

// The five words, each as four bytes.
pub(crate) fn spelled(h: State) -> [u8; 20]
    ensures { result ≡ Sha1.spelled h }
{
    let mut d = [0u8; 20];
    put_word(&mut d, 0, h.a);
    put_word(&mut d, 4, h.b);
    put_word(&mut d, 8, h.c);
    put_word(&mut d, 12, h.d);
    put_word(&mut d, 16, h.e);
    d
}
