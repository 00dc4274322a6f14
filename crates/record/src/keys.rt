// What keys are made of, the number that they are derived for, from a record's own number, and the key
// of that number (002 9.1 and 11.2).
ghost use Rattle.std.specs.Prelude.{◌≡◌};
ghost use Rattle.digest.specs.Hmac.{key_of};
ghost use Rattle.record.specs.Keys.{key_number, mac_secret, label_of, secret_for};

use digest::{Key, Mac};

// What the keys of a handshake are made of: the master secret, both randoms, the MAC kind and the key
// refresh.
#[derive(Clone, Copy)]
pub struct Keys {
    pub secret: [u8; 20],
    pub server: [u8; 16],
    pub client: [u8; 16],
    pub mac: Mac,
    pub refresh: u8,
}

// Whose records: each end has keys of its own.
#[derive(Clone, Copy, PartialEq, Eq, Debug)]
pub enum Sense {
    FromUnit,
    FromShore,
}

impl Sense {
    // The label of the expansion.
    fn label(self) -> [u8; 16]
        ensures { result ≡ label_of self }
    {
        match self {
            Sense::FromUnit => Mac::CLIENT_EXPANSION,
            Sense::FromShore => Mac::SERVER_EXPANSION,
        }
    }
}

impl Keys {
    // The key of a record's own number, so that a late record from before a refresh still verifies.
    pub fn key(self, sense: Sense, number: u16) -> Key
        ensures { result ≡ key_of (secret_for self sense number) }
    {
        let Keys {
            secret,
            server,
            client,
            refresh,
            ..
        } = self;
        record_key(&secret, &sense.label(), refresh, number, &server, &client)
    }
}

// The first number of the run of 2^refresh numbers that `number` is in. Above 15 there is one run.
#[tactic(auto, using(crate::proofs::Marks::remainder_gone), unfolding(crate::specs::Keys::key_number))]
pub fn key_number(refresh: u8, number: u16) -> u16
    ensures { result ≡ key_number refresh number }
{
    if refresh <= 15 {
        (number >> refresh) << refresh
    } else {
        0
    }
}

// The key of a record's own number in the direction of the label, so that a late record from before
// a refresh still verifies.
pub fn record_key(
    secret: &[u8],
    label: &[u8],
    refresh: u8,
    number: u16,
    server: &[u8],
    client: &[u8],
) -> Key
    ensures { result ≡ key_of (mac_secret secret.now label.now (key_number refresh number) server.now client.now) }
{
    derived(secret, label, key_number(refresh, number), server, client)
}

// The key of a key number: records whose key numbers are the same may share it. (The randoms come as slices, since one of
// them may be a part of a reply.)
#[tactic(auto, unfolding(crate::specs::Keys::mac_secret))]
pub fn derived(secret: &[u8], label: &[u8], first: u16, server: &[u8], client: &[u8]) -> Key
    ensures { result ≡ key_of (mac_secret secret.now label.now first server.now client.now) }
{
    let seed = first.to_be_bytes();
    let mut out = [0u8; Mac::SECRET_SIZE];
    digest::prf(secret, label, &seed, server, client, &mut out);
    Key::new(&out)
}
