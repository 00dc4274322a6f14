// The ClientHello, written (002 10.5.1.2): the unit's end, and the tests, need it.
ghost use Rattle.std.specs.Prelude.{◌≡◌, ℕ, length};
ghost use Rattle.message.specs.Buffer.{over, fitting};
ghost use Rattle.message.specs.Field.{told_end};
ghost use Rattle.message.specs.Given.{given_of, fields_given, offers_allowed, sent_of};

use crate::{keys, put};

// Writes the hello that has these values, the lists given as bytes, at the front of the buffer, and gives its size.
// Values that no hello can have, or a buffer that is too small, give 0, and nothing is written.
pub fn write(
    version: u8,
    random: &[u8],
    session: &[u8],
    client: &[u8],
    trusted: &[u8],
    suites: &[u8],
    methods: &[u8],
    numbering: u8,
    refresh: u8,
    out: &mut [u8],
) -> usize
    ensures value { result ≡ length (fitting (length out.old) (sent_of (given_of version random.now session.now client.now trusted.now suites.now methods.now numbering refresh))) }
    ensures out_after { out.new ≡ over out.old (fitting (length out.old) (sent_of (given_of version random.now session.now client.now trusted.now suites.now methods.now numbering refresh))) }
{
    let Some(size) = size_of(random, session, client, trusted, suites, methods) else {
        return 0;
    };
    if out.len() < size {
        return 0;
    }
    let body = size - 3;
    let [high, low] = (body as u16).to_be_bytes();
    let head = [1, high, low, version];
    let last = [numbering, refresh];
    let mut at = put::put(out, 0, &head);
    at = put::put(out, at, random);
    at = put::put_short(out, at, session);
    at = put::put_long(out, at, client);
    at = put::put_long(out, at, trusted);
    at = put::put_short(out, at, suites);
    at = put::put_short(out, at, methods);
    put::put(out, at, &last)
}

// The size of the hello that has these lists, where a hello can have them.
fn size_of(
    random: &[u8],
    session: &[u8],
    client: &[u8],
    trusted: &[u8],
    suites: &[u8],
    methods: &[u8],
) -> Option<usize>
    ensures { (version numbering refresh : ℕ) → result ≡ told_end (length (sent_of (given_of version random.now session.now client.now trusted.now suites.now methods.now numbering refresh))) }
{
    if !fields_allowed(random, session, client, trusted) {
        return None;
    }
    if !offers_allowed(suites, methods) {
        return None;
    }
    if 256 < client.len() {
        return None;
    }
    if 256 < trusted.len() {
        return None;
    }
    let size = 29 + session.len() + client.len() + trusted.len() + suites.len() + methods.len();
    if 256 < size {
        return None;
    }
    Some(size)
}

// Whether a hello can have this random, session identifier and key lists.
#[tactic(auto, unfolding(crate::specs::Given::fields_given))]
fn fields_allowed(random: &[u8], session: &[u8], client: &[u8], trusted: &[u8]) -> bool
    ensures { result ≡ fields_given random.now session.now client.now trusted.now }
{
    random.len() == 16 && session.len() <= 8 && keys::key_list(client) && keys::key_list(trusted)
}

// Whether a hello can offer these suites and compression methods.
#[tactic(auto, unfolding(crate::specs::Given::offers_allowed))]
fn offers_allowed(suites: &[u8], methods: &[u8]) -> bool
    ensures { result ≡ offers_allowed suites.now methods.now }
{
    suites.len() % 2 == 0
        && 2 <= suites.len()
        && suites.len() <= 255
        && 1 <= methods.len()
        && methods.len() <= 255
}
