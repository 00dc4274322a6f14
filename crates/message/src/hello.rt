// The ClientHello, read (002 10.5.1.2). The whole layout is walked; the answer tells where each field stands.
ghost use Rattle.std.specs.Prelude.{◌≡◌, ◌≤◌, ◌<◌, length, IfSome};
ghost use Rattle.message.specs.Field.{told_end};
ghost use Rattle.message.specs.Set.{place};
ghost use Rattle.message.specs.Hello.{read_of, suites_end};

use crate::{field, handshake, keys};

// The most bytes of a ClientHello message, its header included.
const SIZE_MOST: usize = 256;

// Where the contents of a field stand in the message: from the first byte up to the end.
#[derive(Clone, Copy)]
pub struct Place {
    pub from: usize,
    pub end: usize,
}

impl Place {
    pub(crate) fn new(from: usize, end: usize) -> Place
        ensures { result ≡ place from end }
    {
        Place { from, end }
    }
}

// A well-formed hello's fields, in their order.
#[derive(Clone, Copy)]
pub struct Hello {
    pub version: Place,
    pub random: Place,
    pub session: Place,
    pub client: Place,
    pub trusted: Place,
    pub suites: Place,
    pub methods: Place,
    pub numbering: Place,
    pub refresh: Place,
}

// The first field at fault of a malformed hello.
#[derive(Clone, Copy)]
pub enum Field {
    // not one ClientHello message that fills the bytes
    Header,
    // over 256 bytes
    Size,
    Version,
    Random,
    SessionId,
    ClientKeyIds,
    TrustedKeyIds,
    CipherSuites,
    CompressionMethods,
    SequenceNumberMode,
    KeyRefresh,
    // bytes left over
    Rest,
}

// Reads a handshake message as a ClientHello: the first field that is not there is at fault, and the last one ends the
// message. A vector's contents begin after its length.
pub fn read(m: &[u8]) -> Result<Hello, Field>
    ensures { result ≡ read_of m.now }
{
    if !handshake::fills_with(m, 1) {
        return Err(Field::Header);
    }
    if SIZE_MOST < m.len() {
        return Err(Field::Size);
    }
    let version = field::field_end(m, 3, 1).ok_or(Field::Version)?;
    let random = field::field_end(m, version, 16).ok_or(Field::Random)?;
    let session = field::short_end(m, random, 0, 8).ok_or(Field::SessionId)?;
    let client = keys::keys_end(m, session).ok_or(Field::ClientKeyIds)?;
    let trusted = keys::keys_end(m, client).ok_or(Field::TrustedKeyIds)?;
    let suites = suites_end(m, trusted).ok_or(Field::CipherSuites)?;
    let methods = field::short_end(m, suites, 1, 255).ok_or(Field::CompressionMethods)?;
    let numbering = field::field_end(m, methods, 1).ok_or(Field::SequenceNumberMode)?;
    let refresh = field::field_end(m, numbering, 1).ok_or(Field::KeyRefresh)?;
    if refresh < m.len() {
        return Err(Field::Rest);
    }
    Ok(Hello {
        version: Place::new(3, version),
        random: Place::new(version, random),
        session: Place::new(random + 1, session),
        client: Place::new(session + 2, client),
        trusted: Place::new(client + 2, trusted),
        suites: Place::new(trusted + 1, suites),
        methods: Place::new(suites + 1, methods),
        numbering: Place::new(methods, numbering),
        refresh: Place::new(numbering, refresh),
    })
}

// The end of cipher_suites, a vector of pairs: its length is even.
fn suites_end(m: &[u8], at: usize) -> Option<usize>
    ensures value { result ≡ told_end (suites_end m.now at) }
    ensures within { IfSome result (λ end. (0 < end) × (end ≤ length m.now)) }
{
    let size = *m.get(at)?;
    if size % 2 != 0 {
        return None;
    }
    field::short_end(m, at, 2, 255)
}
