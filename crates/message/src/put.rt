// Bytes written into a lent buffer, one piece after the other from its front.
ghost use Rattle.message.specs.Buffer.{Puts};
ghost use Rattle.message.specs.Field.{short, long};
ghost use Rattle.std.specs.Prelude.{length, ◌≤◌};

// Writes a piece at a place and gives the place after it. A piece that does not fit is not written.
pub(crate) fn put(out: &mut [u8], at: usize, s: &[u8]) -> usize
    ensures { Puts s.now out.old at out.new result }
{
    if out.len() < at || out.len() - at < s.len() {
        return at;
    }
    out[at..at + s.len()].copy_from_slice(s);
    at + s.len()
}

// Writes a vector with a length of one byte.
pub(crate) fn put_short(out: &mut [u8], at: usize, s: &[u8]) -> usize
    ensures { length s.now ≤ 255 → Puts (short s.now) out.old at out.new result }
{
    if 255 < s.len() {
        return at;
    }
    let size = [s.len() as u8];
    let next = put(out, at, &size);
    put(out, next, s)
}

// Writes a vector with a length of two bytes.
pub(crate) fn put_long(out: &mut [u8], at: usize, s: &[u8]) -> usize
    ensures { length s.now ≤ 65535 → Puts (long s.now) out.old at out.new result }
{
    if 65535 < s.len() {
        return at;
    }
    let size = (s.len() as u16).to_be_bytes();
    let next = put(out, at, &size);
    put(out, next, s)
}
