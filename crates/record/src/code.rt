// The code of a protected record (002 9.2.3.2 and 11.3.1), its check, and protected records written.
ghost use Rattle.std.specs.Prelude.{true, List, ◌++◌, ◌≡◌, ℕ};
ghost use Rattle.digest.specs.Hmac.{code_under, hmac, key_of};
ghost use Rattle.digest.specs.Mac.{size_of};
ghost use Rattle.record.specs.Code.{coded_of, genuine_by, protected_by};
ghost use Rattle.record.specs.Written.{count_of, size_within, written_of};

use crate::header::Content;
use crate::written::{Head, type_byte};
use digest::{Key, Mac};

// The whole code of a content: over the number, the type byte as on the wire, the content's length
// and the content.
pub fn code(key: Key, number: u16, byte: u8, content: &[u8]) -> [u8; 20]
    ensures exact { result ≡ code_under key (coded_of number byte content.now) }
    ensures meaning { (k : List ℕ) → key ≡ key_of k → result ≡ hmac k (coded_of number byte content.now) }
{
    let [high, low] = number.to_be_bytes();
    let [long, short] = ((content.len() % 65536) as u16).to_be_bytes();
    key.code(&[high, low, byte, long, short], content)
}

// Whether a protected fragment is a content with its code. One that is shorter than its code is
// forged. All bytes of the code are compared.
pub fn genuine(key: Key, mac: Mac, number: u16, byte: u8, fragment: &[u8]) -> bool
    ensures exact { result ≡ genuine_by (code_under key) (size_of mac) number byte fragment.now }
    ensures meaning { (k : List ℕ) → key ≡ key_of k → result ≡ genuine_by (hmac k) (size_of mac) number byte fragment.now }
{
    let size = mac.size();
    if fragment.len() < size {
        return false;
    }
    let (content, sent) = fragment.split_at(fragment.len() - size);
    let whole = code(key, number, byte, content);
    digest::same_code(sent, mac.cut(&whole))
}

// A protected record with this content and its code. Answers how many bytes it wrote: the whole
// record, or none where the room is too small: callers add the count to a place of theirs.
pub fn write_protected(
    key: Key,
    mac: Mac,
    long: bool,
    content: Content,
    number: u16,
    body: &[u8],
    out: &mut [u8],
) -> usize
    ensures count { result ≡ count_of out.old (protected_by (code_under key) (size_of mac) long content number body.now) }
    ensures bytes { out.new ≡ written_of out.old (protected_by (code_under key) (size_of mac) long content number body.now) }
{
    let head = Head {
        long,
        protected: true,
        content,
        number,
    };
    write_coded(key, mac, head, body, out).unwrap_or(0)
}

// The record of a content with its code behind it: its size, where it fits.
pub(crate) fn write_coded(
    key: Key,
    mac: Mac,
    head: Head,
    body: &[u8],
    out: &mut [u8],
) -> Option<usize>
    requires { head.protected ≡ true }
    ensures size { result ≡ size_within out.old (protected_by (code_under key) (size_of mac) head.long head.content head.number body.now) }
    ensures bytes { out.new ≡ written_of out.old (protected_by (code_under key) (size_of mac) head.long head.content head.number body.now) }
{
    let byte = type_byte(head.long, true, head.content);
    let whole = code(key, head.number, byte, body);
    head.write(body, mac.cut(&whole), out)
}
