// What stands in a content that is malformed.
ghost use Rattle.std.specs.Prelude.{◌≡◌, ℕ, ◌+◌, length};
ghost use Rattle.message.specs.Field.{two_at};
ghost use Rattle.why.specs.Contents.{first_of, second_of};

use crate::framing::byte_at;
use record::header::Content;

// The value of a change cipher spec of one byte, the level of an alert of six, the type of a handshake message of three or
// more; else 0.
pub(crate) fn first_of(content: Content, m: &[u8]) -> u16
    ensures { result ≡ first_of content m.now }
{
    match content {
        Content::ChangeCipherSpec => {
            if m.len() == 1 {
                return byte_at(m, 0) as u16;
            }
            0
        }
        Content::Alert => {
            if m.len() == 6 {
                return byte_at(m, 0) as u16;
            }
            0
        }
        Content::Handshake => {
            if m.len() < 3 {
                return 0;
            }
            byte_at(m, 0) as u16
        }
        Content::Data => 0,
    }
}

// The description of an alert of six bytes, the stated length of a handshake message of three or more; else 0.
pub(crate) fn second_of(content: Content, m: &[u8]) -> u16
    ensures { result ≡ second_of content m.now }
{
    match content {
        Content::ChangeCipherSpec => 0,
        Content::Alert => {
            if m.len() == 6 {
                return byte_at(m, 1) as u16;
            }
            0
        }
        Content::Handshake => {
            if m.len() < 3 {
                return 0;
            }
            two_at(m, 1, 2)
        }
        Content::Data => 0,
    }
}

// The number that the bytes at two places spell.
fn two_at(m: &[u8], high: usize, low: usize) -> u16
    requires { low ≡ high + 1 }
    ensures { result ≡ two_at m.now high }
{
    (byte_at(m, high) as u16) * 256 + (byte_at(m, low) as u16)
}
