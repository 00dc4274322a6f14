// HMAC with SHA-1 (RFC 2104; 002 section 11.3.1) and the expansion of secrets (002 section 11.3.2).
ghost use Rattle.std.specs.Prelude.{◌≡◌, ℕ, ◌+◌, ◌<◌, ◌≤◌, List, ◌++◌, length, replicate};
ghost use Rattle.digest.specs.Bytes.{laid_over};
ghost use Rattle.digest.specs.Sha1.{compress, initial_state};
ghost use Rattle.digest.specs.Hasher.{AbsorbedFrom, begun, digest_from, ended};
ghost use Rattle.digest.specs.Hmac.{actual_key, key_block, key_of, code_under, hmac};
ghost use Rattle.digest.specs.Hmac as Hmac;
ghost use Rattle.digest.specs.Expansion.{expansion};
ghost use Rattle.digest.specs.Expansion as Expansion;

use crate::block::{State, absorbed, initial};
use crate::bytes::lay;
use crate::pieces::{Hasher, closed, ending, sha1, spelled};
use crate::seed::Seed;

// A key with both pads absorbed, so that codes under one key do not absorb them again. Every value of it is safe.
#[derive(Clone, Copy)]
pub struct Key {
    pub inner: State,
    pub outer: State,
}

impl Key {
    // The key of the bytes k, of any length.
    pub fn new(k: &[u8]) -> Key
        ensures exact { result ≡ key_of k.now }
    {
        if 64 < k.len() {
            let short = sha1(k);
            return keyed(&short);
        }
        keyed(k)
    }

    // The start of a code: a hasher that takes the message in pieces.
    pub fn begin(self) -> Hasher
        ensures exact { result ≡ begun self.inner }
    {
        let state = self.inner;
        Hasher {
            state,
            rest: [0; 64],
            count: 64,
        }
    }

    // The code of the message that went into h since `begin`.
    pub fn end(self, h: Hasher) -> [u8; 20]
        ensures exact { result ≡ ended self.outer h }
        ensures meaning { (m : List ℕ) → AbsorbedFrom self.inner 64 h m → result ≡ code_under self m }
    {
        let digest = h.finish();
        let outer = self.outer;
        hashed(outer, digest)
    }

    // The code of a message in two pieces.
    pub fn code(self, head: &[u8], body: &[u8]) -> [u8; 20]
        ensures exact { result ≡ code_under self (head.now ++ body.now) }
        ensures meaning { (k : List ℕ) → self ≡ key_of k → result ≡ hmac k (head.now ++ body.now) }
    {
        match head.len().checked_add(body.len()) {
            Some(n) if n < 120 => {
                let mut d = [0u8; 128];
                lay(&mut d, 0, head);
                lay(&mut d, head.len(), body);
                short_code(self, &mut d, n)
            }
            _ => self.end(self.begin().update(head).update(body)),
        }
    }

    // P_hash of the label and of a seed in three pieces, over all of `out`.
    pub fn expand(self, label: &[u8], first: &[u8], second: &[u8], third: &[u8], out: &mut [u8])
        ensures exact { out.new ≡ expansion (code_under self) (label.now ++ (first.now ++ second.now ++ third.now)) (length out.old) }
        ensures meaning { (k : List ℕ) → self ≡ key_of k → out.new ≡ Expansion.prf k label.now (first.now ++ second.now ++ third.now) (length out.old) }
    {
        let seed = Seed::new(label, first, second, third);
        match seed.size() {
            Some(n) if n < 100 && 0 < out.len() && out.len() <= 20 => one_term(self, &seed, n, out),
            _ => all_terms(self, &seed, out),
        }
    }
}

// The pseudo-random function of a secret, a label and a seed in three pieces, over all of `out`.
pub fn prf(secret: &[u8], label: &[u8], first: &[u8], second: &[u8], third: &[u8], out: &mut [u8])
    ensures exact { out.new ≡ Expansion.prf secret.now label.now (first.now ++ second.now ++ third.now) (length out.old) }
{
    Key::new(secret).expand(label, first, second, third, out);
}

// The expansion of any length, term by term.
fn all_terms(key: Key, seed: &Seed, out: &mut [u8])
    ensures { out.new ≡ expansion (code_under key) seed.now (length out.old) }
{
    if out.is_empty() {
        return;
    }
    let last = (out.len() - 1) / 20;
    let mut a = seed.code(key, &[]);
    for i in 0..last {
        let whole = seed.code(key, &a);
        lay(out, 20 * i, &whole);
        let after = next(key, a);
        a = after;
    }
    let cut = seed.code(key, &a);
    let at = 20 * last;
    lay(out, at, &cut[..out.len() - at]);
}

// An expansion of one term, with a seed of n bytes, so few that A(1) and the term each take two blocks at most.
fn one_term(key: Key, seed: &Seed, n: usize, out: &mut [u8])
    requires { (0 < length out.old) × (length out.old ≤ 20) × (length seed.now ≡ n) × (n < 100) }
    ensures { out.new ≡ expansion (code_under key) seed.now (length out.old) }
{
    let mut d = [0u8; 128];
    seed.lay(&mut d);
    let mut e = [0u8; 128];
    lay(&mut e, 20, &d[..n]);
    let a = short_code(key, &mut d, n);
    lay(&mut e, 0, &a);
    let cut = short_code(key, &mut e, 20 + n);
    lay(out, 0, &cut[..out.len()]);
}

// The code of n bytes, which stand at the front of d with zeros behind them.
fn short_code(key: Key, d: &mut [u8], n: usize) -> [u8; 20]
    requires { (length d.old ≡ 128) × (n < 120) }
    ensures { (m : List ℕ) → length m ≡ n → d.old ≡ laid_over (replicate 128 0) 0 m → result ≡ code_under key m }
{
    let inner = key.inner;
    let outer = key.outer;
    let last = closed(inner, d, n, (n + 64) as u64);
    hashed(outer, spelled(last))
}

// A(i + 1), from A(i).
fn next(key: Key, a: [u8; 20]) -> [u8; 20]
    ensures { result ≡ code_under key a }
{
    let inner = key.inner;
    let outer = key.outer;
    hashed(outer, hashed(inner, a))
}

// The digest of twenty bytes behind one block, from the state h after it.
fn hashed(h: State, a: [u8; 20]) -> [u8; 20]
    requires { length a ≡ 20 }
    ensures { result ≡ digest_from h 64 a }
{
    ending(h, &a, 84)
}

// The key of which the bytes k, a block at most, are what is used: the key itself, or its digest.
fn keyed(k: &[u8]) -> Key
    requires { length k.now ≤ 64 }
    ensures { (m : List ℕ) → k.now ≡ actual_key m → result ≡ key_of m }
{
    let block = key_block(k);
    Key {
        inner: padded(block, 0x36),
        outer: padded(block, 0x5c),
    }
}

// Those bytes with zeros behind them, up to a block.
fn key_block(k: &[u8]) -> [u8; 64]
    requires { length k.now ≤ 64 }
    ensures { ((m : List ℕ) → k.now ≡ actual_key m → result ≡ key_block m) × (length result ≡ 64) }
{
    let mut block = [0u8; 64];
    lay(&mut block, 0, k);
    block
}

// The state after the block's bytes, each XOR x.
fn padded(block: [u8; 64], x: u8) -> State
    requires { length block ≡ 64 }
    ensures { result ≡ compress (Hmac.masked x block) initial_state }
{
    let pad = masked(block, x);
    absorbed(initial(), &pad)
}

// Each byte of the block XOR x.
fn masked(block: [u8; 64], x: u8) -> [u8; 64]
    requires { length block ≡ 64 }
    ensures { result ≡ Hmac.masked x block }
{
    let mut d = block;
    for byte in &mut d {
        *byte ^= x;
    }
    d
}
