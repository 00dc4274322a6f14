// Finished (002 10.5.9).
ghost use Rattle.std.specs.Prelude.{◌≡◌, ◌++◌};
ghost use Rattle.message.specs.Finished.{server_verify, client_verify, finished_of, judged_of};

use crate::{field, handshake};
use digest::Hasher;

// Why a message is not the Finished that is due.
#[derive(Clone, Copy)]
pub enum Unverified {
    // a Finished with other contents
    Wrong,
    Malformed,
}

// The contents of our Finished: both hellos, as whole messages, are hashed one after the other.
pub fn server_verify(secret: &[u8], client: &[u8], server: &[u8]) -> [u8; 12]
    ensures { result ≡ server_verify secret.now client.now server.now }
{
    let hash = Hasher::new().update(client).update(server).finish();
    let mut out = [0u8; 12];
    digest::prf(secret, b"server finished", &hash, &[], &[], &mut out);
    out
}

// The contents of the unit's Finished: both hellos and our Finished are hashed one after the other.
pub fn client_verify(secret: &[u8], client: &[u8], server: &[u8], finished: &[u8]) -> [u8; 12]
    ensures { result ≡ client_verify secret.now client.now server.now finished.now }
{
    let hash = Hasher::new()
        .update(client)
        .update(server)
        .update(finished)
        .finish();
    let mut out = [0u8; 12];
    digest::prf(secret, b"client finished", &hash, &[], &[], &mut out);
    out
}

// The Finished message of its contents.
pub fn message(verify: [u8; 12]) -> [u8; 15]
    ensures { result ≡ finished_of verify }
{
    let mut out = [0u8; 15];
    out[..3].copy_from_slice(&[20, 0, 12]);
    out[3..].copy_from_slice(&verify);
    out
}

// Judges a message that is to be a Finished with the contents expected. All of them are compared, wherever the first
// difference stands.
#[tactic(auto, unfolding(crate::specs::Finished::judged_of))]
pub fn judge(m: &[u8], expected: &[u8]) -> Result<(), Unverified>
    ensures { result ≡ judged_of m.now expected.now }
{
    if m.len() != 15 {
        return Err(Unverified::Malformed);
    }
    if !handshake::fills_with(m, 20) {
        return Err(Unverified::Malformed);
    }
    if digest::same_code(field::part(m, 3, 15), expected) {
        return Ok(());
    }
    Err(Unverified::Wrong)
}
