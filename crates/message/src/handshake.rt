// The handshake message (002 10.5): type, 2-byte length, body. Exactly one fills a record.
ghost use Rattle.std.specs.Prelude.{◌≡◌};
ghost use Rattle.message.specs.Handshake.{fills};

use crate::field;

// Whether one message of a type fills the bytes.
#[tactic(auto, unfolding(crate::specs::Handshake::fills))]
pub fn fills_with(m: &[u8], kind: u8) -> bool
    ensures { result ≡ fills kind m.now }
{
    if m.len() < 3 {
        return false;
    }
    if m[0] != kind {
        return false;
    }
    usize::from(field::two_at(m, 1)) == m.len() - 3
}
