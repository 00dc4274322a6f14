// What a unit offers, and the ClientHello that offers it (002 10.5.1.2; 01, profile).
ghost use Rattle.std.specs.Prelude.{◌≡◌, length};
ghost use Rattle.message.specs.Buffer.{over, fitting};
ghost use Rattle.message.specs.Given.{sent_of};
ghost use Rattle.message.specs.Offer.{kinds_named, suites_of, offers, offer_given};

use crate::writer;
use digest::Mac;

// The MAC kinds of the profile, in the order of preference: one of them or both.
#[derive(Clone, Copy)]
pub enum Kinds {
    Sha80,
    Sha,
    Sha80First,
    ShaFirst,
}

// The kinds that are offered, and the key refresh that is suggested.
#[derive(Clone, Copy)]
pub struct Offer {
    pub kinds: Kinds,
    pub refresh: u8,
}

// The kinds that these numbers name: one or both of 2 and 3, without repetition.
#[tactic(auto, unfolding(crate::specs::Offer::kinds_named))]
pub fn kinds_of(macs: &[u8]) -> Option<Kinds>
    ensures { result ≡ kinds_named macs.now }
{
    if digest::same_code(macs, &[2]) {
        return Some(Kinds::Sha80);
    }
    if digest::same_code(macs, &[3]) {
        return Some(Kinds::Sha);
    }
    if digest::same_code(macs, &[2, 3]) {
        return Some(Kinds::Sha80First);
    }
    if digest::same_code(macs, &[3, 2]) {
        return Some(Kinds::ShaFirst);
    }
    None
}

// Whether a kind is among those offered.
pub fn is_offered(kinds: Kinds, mac: Mac) -> bool
    ensures { result ≡ offers kinds mac }
{
    match (kinds, mac) {
        (Kinds::Sha80, Mac::Sha) | (Kinds::Sha, Mac::Sha80) => false,
        _ => true,
    }
}

// Writes the ClientHello of an offer, with the unit's random and the identifier of the session, at the front of the
// buffer, and gives its size. A random that is not 16 bytes, an identifier over 8, or a buffer that is too small gives
// 0, and nothing is written.
pub fn write(random: &[u8], session: &[u8], offer: Offer, out: &mut [u8]) -> usize
    ensures value { result ≡ length (fitting (length out.old) (sent_of (offer_given random.now session.now offer))) }
    ensures out_after { out.new ≡ over out.old (fitting (length out.old) (sent_of (offer_given random.now session.now offer))) }
{
    let none = [0u8; 0];
    let null = [0u8; 1];
    writer::write(
        1,
        random,
        session,
        &none,
        &none,
        pairs(offer.kinds),
        &null,
        2,
        offer.refresh,
        out,
    )
}

// The pairs of null cipher and MAC kind.
fn pairs(kinds: Kinds) -> &'static [u8]
    ensures { result.now ≡ suites_of kinds }
{
    match kinds {
        Kinds::Sha80 => &[0, 2],
        Kinds::Sha => &[0, 3],
        Kinds::Sha80First => &[0, 2, 0, 3],
        Kinds::ShaFirst => &[0, 3, 0, 2],
    }
}
