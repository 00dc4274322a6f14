// Explicit parameter sets (002 10.5.1.2): those of the Diffie-Hellman and the elliptic curve suites. The answer tells where
// each part stands in the bytes of the set.
ghost use Rattle.std.specs.Prelude.{◌≡◌, ◌≤◌, ◌<◌, length, IfSome};
ghost use Rattle.message.specs.Field.{told_end};
ghost use Rattle.message.specs.Set.{next_long, basis_end, curve_field_end, field_id_of, read_dh, read_ec, read_of, set_sound};

use crate::field;
use crate::field::{byte_at, two_at};
use crate::hello::Place;

// ECFieldID and ECBasisType with their numbers; a prime or a polynomial is told by its place.
#[derive(Clone, Copy)]
pub enum FieldId {
    Prime(Place),
    Onb(u16),
    Trinomial(u16, u16),
    Pentanomial(u16, u16, u16, u16),
    Polynomial(u16, Place),
}

#[derive(Clone, Copy)]
pub struct DhParameters {
    pub e: u8,
    pub p: Place,
    pub g: Place,
}

#[derive(Clone, Copy)]
pub struct EcParameters {
    pub field: FieldId,
    pub a: Place,
    pub b: Place,
    pub seed: Place,
    pub base: Place,
    pub order: Place,
    pub cofactor: Place,
}

// A well-formed set, by its suite.
#[derive(Clone, Copy)]
pub enum Set {
    // the suite's sets are not read
    Skipped,
    DiffieHellman(DhParameters),
    EllipticCurve(EcParameters),
}

// Reads the bytes of an explicit set of a key exchange suite.
#[tactic(auto, unfolding(crate::specs::Set::read_of))]
pub fn read(suite: u8, s: &[u8]) -> Option<Set>
    ensures { result ≡ read_of suite s.now }
{
    match suite {
        2..=4 => read_dh(s),
        11..=18 => read_ec(s),
        _ => Some(Set::Skipped),
    }
}

// Whether an explicit set of a suite is sound: one that is not read always is.
#[tactic(auto, unfolding(crate::specs::Set::set_sound))]
pub(crate) fn sound(suite: u8, s: &[u8]) -> bool
    ensures { result ≡ set_sound suite s.now }
{
    read(suite, s).is_some()
}

// DHParameters: e, p, g.
fn read_dh(s: &[u8]) -> Option<Set>
    ensures { result ≡ read_dh s.now }
{
    let p = next_long(s, 1)?;
    let g = next_long(s, p)?;
    if g < s.len() {
        return None;
    }
    Some(Set::DiffieHellman(DhParameters {
        e: byte_at(s, 0),
        p: Place::new(3, p),
        g: Place::new(p + 2, g),
    }))
}

// ECParameters: field, a, b, seed, base, order, cofactor.
fn read_ec(s: &[u8]) -> Option<Set>
    ensures { result ≡ read_ec s.now }
{
    let end = curve_field_end(s)?;
    let a = field::short_end(s, end, 1, 255)?;
    let b = field::short_end(s, a, 1, 255)?;
    let seed = field::short_end(s, b, 0, 255)?;
    let base = field::short_end(s, seed, 1, 255)?;
    let order = field::short_end(s, base, 1, 255)?;
    let cofactor = field::short_end(s, order, 1, 255)?;
    if cofactor < s.len() {
        return None;
    }
    Some(Set::EllipticCurve(EcParameters {
        field: field_id(s, end),
        a: Place::new(end + 1, a),
        b: Place::new(a + 1, b),
        seed: Place::new(b + 1, seed),
        base: Place::new(seed + 1, base),
        order: Place::new(base + 1, order),
        cofactor: Place::new(order + 1, cofactor),
    }))
}

// The end of a vector of one byte or more with a length of two bytes.
fn next_long(s: &[u8], at: usize) -> Option<usize>
    requires { 0 < at }
    ensures value { result ≡ told_end (next_long s.now at) }
    ensures within { IfSome result (λ end. (0 < end) × (end ≤ length s.now)) }
{
    if two_at(s, at) == 0 {
        return None;
    }
    field::long_end(s, at)
}

// The end of the field: its number, then the prime, or m and a basis.
fn curve_field_end(s: &[u8]) -> Option<usize>
    ensures value { result ≡ told_end (curve_field_end s.now) }
    ensures within { IfSome result (λ end. (0 < end) × (end ≤ length s.now)) }
{
    let kind = *s.first()?;
    match kind {
        1 => field::short_end(s, 1, 1, 255),
        2 => basis_end(s),
        _ => None,
    }
}

// The end of the basis: none, k, three of them, or a polynomial.
fn basis_end(s: &[u8]) -> Option<usize>
    ensures value { result ≡ told_end (basis_end s.now) }
    ensures within { IfSome result (λ end. (0 < end) × (end ≤ length s.now)) }
{
    let kind = *s.get(3)?;
    match kind {
        1 => Some(4),
        2 => field::field_end(s, 4, 2),
        3 => field::field_end(s, 4, 6),
        4 => field::short_end(s, 4, 1, 255),
        _ => None,
    }
}

// The field that stands at the front, up to its end.
#[tactic(auto, unfolding(crate::specs::Set::field_id_of))]
fn field_id(s: &[u8], end: usize) -> FieldId
    requires { end ≡ curve_field_end s.now }
    ensures { result ≡ field_id_of s.now }
{
    if byte_at(s, 0) == 1 {
        return FieldId::Prime(Place::new(2, end));
    }
    let m = two_at(s, 1);
    match byte_at(s, 3) {
        1 => FieldId::Onb(m),
        2 => FieldId::Trinomial(m, two_at(s, 4)),
        3 => FieldId::Pentanomial(m, two_at(s, 4), two_at(s, 6), two_at(s, 8)),
        _ => FieldId::Polynomial(m, Place::new(5, end)),
    }
}
