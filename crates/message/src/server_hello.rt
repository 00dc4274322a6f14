// The ServerHello, read (002 10.5.1.3). The answer tells where its session identifier ends; every other field stands at a
// fixed place before or behind that.
ghost use Rattle.std.specs.Prelude.{◌≡◌};
ghost use Rattle.message.specs.ServerHello.{server_read};

use crate::{field, handshake};

// Reads a handshake message as a ServerHello.
#[tactic(auto, unfolding(crate::specs::ServerHello::server_read))]
pub fn read(m: &[u8]) -> Option<usize>
    ensures { result ≡ server_read m.now }
{
    if !handshake::fills_with(m, 2) {
        return None;
    }
    let session = field::byte_at(m, 20) as usize;
    if 8 < session {
        return None;
    }
    if m.len() != 27 + session {
        return None;
    }
    Some(21 + session)
}
