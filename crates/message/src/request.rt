// The HelloRequest (002 10.5.1.1): a handshake message without a body.
ghost use Rattle.std.specs.Prelude.{◌≡◌};
ghost use Rattle.message.specs.Request.{is_request};

use crate::handshake;

// Whether the bytes are a HelloRequest.
#[tactic(auto, unfolding(crate::specs::Request::is_request))]
pub fn is_request(m: &[u8]) -> bool
    ensures { result ≡ is_request m.now }
{
    if m.len() != 3 {
        return false;
    }
    handshake::fills_with(m, 0)
}
