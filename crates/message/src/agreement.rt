// Whether a ServerHello answers what was offered (02, P7), and what is then agreed on.
ghost use Rattle.std.specs.Prelude.{◌≡◌, ◌≤◌};
ghost use Rattle.message.specs.Agreement.{agreement_of, agreed_at, agreed_of, chosen_of, offered_as};

use crate::acceptance::Plan;
use crate::offer::{Kinds, Offer, is_offered};
use crate::{field, server_hello};
use digest::Mac;

// The first term of a ServerHello that does not answer the offer, in the order of its layout.
#[derive(Clone, Copy)]
pub enum Term {
    Version,
    SessionId,
    ClientKey,
    CipherSuite,
    Compression,
    Numbering,
    Refresh,
}

// Why a message that is to be a ServerHello does not answer the offer.
#[derive(Clone, Copy)]
pub enum Disagreed {
    Unacceptable(Term),
    Malformed,
}

// Reads a message as a ServerHello and judges it against the session's identifier and the offer.
#[tactic(auto, unfolding(crate::specs::Agreement::agreement_of))]
pub fn agree(m: &[u8], planted: &[u8], offer: Offer) -> Result<Plan, Disagreed>
    ensures { result ≡ agreement_of m.now planted.now offer }
{
    let end = server_hello::read(m).ok_or(Disagreed::Malformed)?;
    judge(m, end, planted, offer)
}

// Judges the values that stand in a ServerHello whose session identifier ends at a place.
fn judge(m: &[u8], end: usize, planted: &[u8], offer: Offer) -> Result<Plan, Disagreed>
    requires { end ≤ 29 }
    ensures { result ≡ agreed_at m.now end planted.now offer }
{
    judged(
        field::byte_at(m, 3),
        field::part(m, 21, end),
        field::byte_at(m, end),
        field::byte_at(m, end + 1),
        field::byte_at(m, end + 2),
        field::byte_at(m, end + 3),
        field::byte_at(m, end + 4),
        field::byte_at(m, end + 5),
        planted,
        offer,
    )
}

// Judges a ServerHello's values: agreed, or the first term that does not answer the offer.
#[tactic(auto, unfolding(crate::specs::Agreement::agreed_of))]
pub fn judged(
    version: u8,
    session: &[u8],
    key: u8,
    cipher: u8,
    mac: u8,
    compression: u8,
    numbering: u8,
    refresh: u8,
    planted: &[u8],
    offer: Offer,
) -> Result<Plan, Disagreed>
    ensures { result ≡ agreed_of version session.now key cipher mac compression numbering refresh planted.now offer }
{
    if version != 1 {
        return Err(Disagreed::Unacceptable(Term::Version));
    }
    if !digest::same_code(session, planted) {
        return Err(Disagreed::Unacceptable(Term::SessionId));
    }
    if key != 0 {
        return Err(Disagreed::Unacceptable(Term::ClientKey));
    }
    let kinds = offer.kinds;
    let Some(chosen) = chosen(cipher, mac, kinds) else {
        return Err(Disagreed::Unacceptable(Term::CipherSuite));
    };
    if compression != 0 {
        return Err(Disagreed::Unacceptable(Term::Compression));
    }
    if numbering != 2 {
        return Err(Disagreed::Unacceptable(Term::Numbering));
    }
    if offer.refresh < refresh {
        return Err(Disagreed::Unacceptable(Term::Refresh));
    }
    Ok(Plan {
        mac: chosen,
        refresh,
        key: 0,
    })
}

// The kind of a pair of null cipher and a kind that was offered.
#[tactic(auto, unfolding(crate::specs::Agreement::chosen_of))]
fn chosen(cipher: u8, mac: u8, kinds: Kinds) -> Option<Mac>
    ensures { result ≡ chosen_of cipher mac kinds }
{
    if cipher != 0 {
        return None;
    }
    offered(kinds, Mac::listed(mac))
}

// The kind, where it was offered.
fn offered(kinds: Kinds, kind: Option<Mac>) -> Option<Mac>
    ensures { result ≡ offered_as kinds kind }
{
    kind.filter(|mac| is_offered(kinds, *mac))
}
