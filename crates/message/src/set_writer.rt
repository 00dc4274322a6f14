// Explicit parameter sets, written (002 10.5.1.2): what was read can be written back.
ghost use Rattle.std.specs.Prelude.{◌≡◌, true, ◌+◌, length, ltb};
ghost use Rattle.digest.specs.Pick.{pick};
ghost use Rattle.message.specs.Buffer.{over, fitting, Puts};
ghost use Rattle.message.specs.Set.{vector_allowed, vectors_allowed, field_allowed, field_bytes, field_written, dh_written, ec_written, written_of, field_at, set_at};

use crate::set::{FieldId, Set};
use crate::{field, put};

// Writes the set whose values stand at the places of the lent bytes, at the front of the buffer, and gives its size. What has
// no values, values that no set can have, or a buffer that is too small give 0, and nothing is written.
pub fn write(s: &[u8], set: Option<Set>, out: &mut [u8]) -> usize
    ensures value { result ≡ length (fitting (length out.old) (written_of (set_at s.now set))) }
    ensures out_after { out.new ≡ over out.old (fitting (length out.old) (written_of (set_at s.now set))) }
{
    let Some(found) = set else {
        return 0;
    };
    match found {
        Set::Skipped => 0,
        Set::DiffieHellman(d) => {
            let p = d.p;
            let g = d.g;
            write_dh(
                d.e,
                field::part(s, p.from, p.end),
                field::part(s, g.from, g.end),
                out,
            )
        }
        Set::EllipticCurve(c) => {
            let field = c.field;
            let a = c.a;
            let b = c.b;
            let seed = c.seed;
            let base = c.base;
            let order = c.order;
            let cofactor = c.cofactor;
            write_ec(
                s,
                field,
                field::part(s, a.from, a.end),
                field::part(s, b.from, b.end),
                field::part(s, seed.from, seed.end),
                field::part(s, base.from, base.end),
                field::part(s, order.from, order.end),
                field::part(s, cofactor.from, cofactor.end),
                out,
            )
        }
    }
}

// DHParameters: e, p, g.
fn write_dh(e: u8, p: &[u8], g: &[u8], out: &mut [u8]) -> usize
    ensures value { result ≡ length (fitting (length out.old) (dh_written e p.now g.now)) }
    ensures out_after { out.new ≡ over out.old (fitting (length out.old) (dh_written e p.now g.now)) }
{
    if !vector_allowed(p, 1, 65535) {
        return 0;
    }
    if !vector_allowed(g, 1, 65535) {
        return 0;
    }
    if out.len() < 5 + p.len() + g.len() {
        return 0;
    }
    let first = [e];
    let mut at = put::put(out, 0, &first);
    at = put::put_long(out, at, p);
    put::put_long(out, at, g)
}

// ECParameters: field, a, b, seed, base, order, cofactor.
fn write_ec(
    s: &[u8],
    field: FieldId,
    a: &[u8],
    b: &[u8],
    seed: &[u8],
    base: &[u8],
    order: &[u8],
    cofactor: &[u8],
    out: &mut [u8],
) -> usize
    ensures value { result ≡ length (fitting (length out.old) (ec_written (field_at s.now field) a.now b.now seed.now base.now order.now cofactor.now)) }
    ensures out_after { out.new ≡ over out.old (fitting (length out.old) (ec_written (field_at s.now field) a.now b.now seed.now base.now order.now cofactor.now)) }
{
    let front = field_size(s, field);
    if front == 0 {
        return 0;
    }
    if !vectors_allowed(a, b, seed, base, order, cofactor) {
        return 0;
    }
    let size = front
        + 6
        + a.len()
        + b.len()
        + seed.len()
        + base.len()
        + order.len()
        + cofactor.len();
    if out.len() < size {
        return 0;
    }
    let mut at = put_field(s, field, out);
    at = put::put_short(out, at, a);
    at = put::put_short(out, at, b);
    at = put::put_short(out, at, seed);
    at = put::put_short(out, at, base);
    at = put::put_short(out, at, order);
    put::put_short(out, at, cofactor)
}

// Writes the field at the front: its number, then the prime, or m, the number of the basis and what belongs to it.
fn put_field(s: &[u8], field: FieldId, out: &mut [u8]) -> usize
    ensures { field_allowed (field_at s.now field) ≡ true → Puts (field_bytes (field_at s.now field)) out.old 0 out.new result }
{
    match field {
        FieldId::Prime(p) => {
            let front = [1];
            let at = put::put(out, 0, &front);
            put::put_short(out, at, field::part(s, p.from, p.end))
        }
        FieldId::Onb(m) => {
            let [high, low] = m.to_be_bytes();
            let front = [2, high, low, 1];
            put::put(out, 0, &front)
        }
        FieldId::Trinomial(m, k) => {
            let [high, low] = m.to_be_bytes();
            let [k_high, k_low] = k.to_be_bytes();
            let front = [2, high, low, 2, k_high, k_low];
            put::put(out, 0, &front)
        }
        FieldId::Pentanomial(m, k1, k2, k3) => {
            let [high, low] = m.to_be_bytes();
            let [a, b] = k1.to_be_bytes();
            let [c, d] = k2.to_be_bytes();
            let [e, f] = k3.to_be_bytes();
            let front = [2, high, low, 3, a, b, c, d, e, f];
            put::put(out, 0, &front)
        }
        FieldId::Polynomial(m, p) => {
            let [high, low] = m.to_be_bytes();
            let front = [2, high, low, 4];
            let at = put::put(out, 0, &front);
            put::put_short(out, at, field::part(s, p.from, p.end))
        }
    }
}

// The size of a field, or 0 where no set can have it: a size is never 0, and the sum of the sizes goes on with it.
fn field_size(s: &[u8], field: FieldId) -> usize
    ensures { result ≡ length (field_written (field_at s.now field)) }
{
    match field {
        FieldId::Prime(p) => behind(2, field::part(s, p.from, p.end)),
        FieldId::Onb(m) => ranged(m, 4),
        FieldId::Trinomial(m, k) => ranged(m, ranged(k, 6)),
        FieldId::Pentanomial(m, k1, k2, k3) => ranged(m, ranged(k1, ranged(k2, ranged(k3, 10)))),
        FieldId::Polynomial(m, p) => ranged(m, behind(5, field::part(s, p.from, p.end))),
    }
}

// The size of some bytes and a vector of 1 to 255 behind them, or 0 for another vector.
fn behind(front: u8, v: &[u8]) -> usize
    ensures { result ≡ pick (vector_allowed 1 255 v.now) (front + length v.now) 0 }
{
    if vector_allowed(v, 1, 255) {
        return usize::from(front) + v.len();
    }
    0
}

// A size that goes with a number of two bytes, which each is.
fn ranged(n: u16, size: usize) -> usize
    ensures { result ≡ pick (ltb n 65536) size 0 }
{
    size
}

// Whether a set can have these vectors.
#[tactic(auto, unfolding(crate::specs::Set::vectors_allowed))]
fn vectors_allowed(
    a: &[u8],
    b: &[u8],
    seed: &[u8],
    base: &[u8],
    order: &[u8],
    cofactor: &[u8],
) -> bool
    ensures { result ≡ vectors_allowed a.now b.now seed.now base.now order.now cofactor.now }
{
    vector_allowed(a, 1, 255)
        && vector_allowed(b, 1, 255)
        && vector_allowed(seed, 0, 255)
        && vector_allowed(base, 1, 255)
        && vector_allowed(order, 1, 255)
        && vector_allowed(cofactor, 1, 255)
}

// Whether a vector keeps its bounds.
fn vector_allowed(v: &[u8], floor: usize, ceiling: usize) -> bool
    ensures { result ≡ vector_allowed floor ceiling v.now }
{
    floor <= v.len() && v.len() <= ceiling
}
