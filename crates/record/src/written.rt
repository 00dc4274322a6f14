// Records written into a lent buffer (002 9.2.1): header with or without a length, then the
// fragment. The counted bytes stand at the front, and no other byte is touched.
ghost use Rattle.std.specs.Prelude.{false, ◌++◌, ◌≡◌, ◌+◌, ◌≤◌, length};
ghost use Rattle.digest.specs.Bytes.{laid_over};
ghost use Rattle.record.specs.Written.{header_of, header_size, record_of, written_of, size_within, count_of, byte_for};

use crate::header::{Content, Kind};

// What stands in a header of ours but for the fragment's length: a sequence number always does.
#[derive(Clone, Copy)]
pub(crate) struct Head {
    pub long: bool,
    pub protected: bool,
    pub content: Content,
    pub number: u16,
}

// A clear record with this fragment. Answers how many bytes it wrote: the whole record, or none
// where the room is too small: callers add the count to a place of theirs.
pub fn write_clear(
    long: bool,
    content: Content,
    number: u16,
    fragment: &[u8],
    out: &mut [u8],
) -> usize
    ensures count { result ≡ count_of out.old (record_of long false content number fragment.now) }
    ensures bytes { out.new ≡ written_of out.old (record_of long false content number fragment.now) }
{
    let head = Head {
        long,
        protected: false,
        content,
        number,
    };
    head.write(fragment, &[], out).unwrap_or(0)
}

impl Head {
    // A record whose fragment is `first` and then `second`: its size, where it fits.
    pub(crate) fn write(self, first: &[u8], second: &[u8], out: &mut [u8]) -> Option<usize>
        ensures size { result ≡ size_within out.old (record_of self.long self.protected self.content self.number (first.now ++ second.now)) }
        ensures bytes { out.new ≡ written_of out.old (record_of self.long self.protected self.content self.number (first.now ++ second.now)) }
    {
        let next = self.size() + first.len();
        let end = next.checked_add(second.len())?;
        if out.len() < end {
            return None;
        }
        self.put(first.len() + second.len(), out);
        put(out, self.size(), first);
        put(out, next, second);
        Some(end)
    }

    // How many bytes the header has.
    fn size(self) -> usize
        ensures value { result ≡ header_size self.long }
        ensures upper_bound { result ≤ 5 }
    {
        if self.long { 5 } else { 3 }
    }

    // The header over the front of `out`, before a fragment of `size` bytes.
    #[tactic(auto, using(crate::proofs::Fronts::header_three), unfolding(crate::specs::Written::header_of, digest::specs::Bytes::laid_over))]
    fn put(self, size: usize, out: &mut [u8])
        requires { header_size self.long ≤ length out.old }
        ensures { out.new ≡ laid_over out.old 0 (header_of self.long self.protected self.content self.number size) }
    {
        let byte = type_byte(self.long, self.protected, self.content);
        let [high, low] = self.number.to_be_bytes();
        put(out, 0, &[byte, high, low]);
        if self.long {
            put(out, 3, &((size % 65536) as u16).to_be_bytes());
        }
    }
}

// The type byte of a record of ours, which always has a sequence number.
#[tactic(auto, unfolding(crate::specs::Written::byte_for))]
pub fn type_byte(long: bool, protected: bool, content: Content) -> u8
    ensures { result ≡ byte_for long protected content }
{
    u8::from(Kind {
        long,
        numbered: true,
        protected,
        reserved: false,
        content: u8::from(content),
    })
}

// s over d from place `at` on.
fn put(d: &mut [u8], at: usize, s: &[u8])
    requires { at + length s.now ≤ length d.old }
    ensures { d.new ≡ laid_over d.old at s.now }
{
    digest::put(d, at, s);
}
