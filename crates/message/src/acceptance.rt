// Whether a ClientHello is acceptable (01, Handshake), and what is planned for it.
ghost use Rattle.std.specs.Prelude.{◌≡◌};
ghost use Rattle.message.specs.Values.{values_at};
ghost use Rattle.message.specs.Acceptance.{fits_pair, first_fit, accepted_of, acceptance_of, heard_of};

use crate::hello::{Field, Hello};
use crate::{field, hello};
use digest::Mac;

// What the handshake that follows an accepted hello goes by.
#[derive(Clone, Copy)]
pub struct Plan {
    pub mac: Mac,
    pub refresh: u8,
    // the client key number
    pub key: u8,
}

// The first condition that a hello does not meet.
#[derive(Clone, Copy)]
pub enum Condition {
    Version,
    SessionId,
    CipherSuite,
    Compression,
    Numbering,
}

// Why a message that is to be a ClientHello is not accepted.
#[derive(Clone, Copy)]
pub enum Unheard {
    Unacceptable(Condition),
    Malformed(Field),
}

impl From<Condition> for Unheard {
    ghost use Rattle.message.specs.declared.acceptance.Unheard.TheVariants.{Unacceptable};

    ghost from_gives = { λ condition u. u ≡ Unacceptable condition };

    fn from(condition: Condition) -> Unheard {
        Unheard::Unacceptable(condition)
    }
}

impl From<Field> for Unheard {
    ghost use Rattle.message.specs.declared.acceptance.Unheard.TheVariants.{Malformed};

    ghost from_gives = { λ fault u. u ≡ Malformed fault };

    fn from(fault: Field) -> Unheard {
        Unheard::Malformed(fault)
    }
}

// Reads a message as a ClientHello and judges it against the planted session identifier.
#[tactic(auto, unfolding(crate::specs::Acceptance::heard_of))]
pub fn hear(m: &[u8], planted: &[u8]) -> Result<Plan, Unheard>
    ensures { result ≡ heard_of m.now planted.now }
{
    let h = hello::read(m)?;
    Ok(judge(m, h, planted)?)
}

// Judges the values that stand at the places of a hello.
fn judge(m: &[u8], h: Hello, planted: &[u8]) -> Result<Plan, Condition>
    ensures { result ≡ acceptance_of (values_at m.now h) planted.now }
{
    let version = h.version;
    let session = h.session;
    let suites = h.suites;
    let methods = h.methods;
    let numbering = h.numbering;
    let refresh = h.refresh;
    accept(
        field::byte_at(m, version.from),
        field::part(m, session.from, session.end),
        field::part(m, suites.from, suites.end),
        field::part(m, methods.from, methods.end),
        field::byte_at(m, numbering.from),
        field::byte_at(m, refresh.from),
        planted,
    )
}

// Judges a hello's values: accepted with the first pair that fits, or the first condition that fails.
#[tactic(auto, unfolding(crate::specs::Acceptance::accepted_of))]
pub fn accept(
    version: u8,
    session: &[u8],
    suites: &[u8],
    methods: &[u8],
    numbering: u8,
    refresh: u8,
    planted: &[u8],
) -> Result<Plan, Condition>
    ensures { result ≡ accepted_of version session.now suites.now methods.now numbering refresh planted.now }
{
    if version != 1 {
        return Err(Condition::Version);
    }
    if !digest::same_code(session, planted) {
        return Err(Condition::SessionId);
    }
    let Some(mac) = Mac::listed(first_fit(suites)) else {
        return Err(Condition::CipherSuite);
    };
    if !methods.contains(&0) {
        return Err(Condition::Compression);
    }
    if numbering != 2 {
        return Err(Condition::Numbering);
    }
    Ok(Plan {
        mac,
        refresh,
        key: 0,
    })
}

// The MAC number of the first pair that the profile has, or 0.
fn first_fit(suites: &[u8]) -> u8
    ensures { result ≡ first_fit suites.now }
{
    let mut rest = suites;
    while let [cipher, mac, tail @ ..] = rest {
        if fits(*cipher, *mac) {
            return *mac;
        }
        rest = tail;
    }
    0
}

// Whether a pair is the null cipher with SHA_80 or SHA.
#[tactic(auto, unfolding(crate::specs::Acceptance::fits_pair))]
fn fits(cipher: u8, mac: u8) -> bool
    ensures { result ≡ fits_pair cipher mac }
{
    cipher == 0 && (mac == 2 || mac == 3)
}
