// Fields of a message, one after the other (002 8.3). A field is told by the place where it ends.
ghost use Rattle.std.specs.Prelude.{◌≡◌, ◌+◌, ◌≤◌, ◌<◌, length, get_or, IfSome};
ghost use Rattle.message.specs.Field.{field_end, short_end, long_end, told_end, two_at, part_of};

// The end of a field of size bytes that begins at a place behind the first.
pub(crate) fn field_end(m: &[u8], at: usize, size: usize) -> Option<usize>
    requires { 0 < at }
    ensures value { result ≡ told_end (field_end m.now at size) }
    ensures within { IfSome result (λ end. (0 < end) × (end ≤ length m.now)) }
{
    if m.len() < at || m.len() - at < size {
        return None;
    }
    Some(at + size)
}

// The end of a vector whose length field is one byte.
pub(crate) fn short_end(m: &[u8], at: usize, floor: usize, ceiling: usize) -> Option<usize>
    ensures value { result ≡ told_end (short_end floor ceiling m.now at) }
    ensures within { IfSome result (λ end. (0 < end) × (end ≤ length m.now)) }
{
    let size = usize::from(*m.get(at)?);
    if size < floor || ceiling < size {
        return None;
    }
    field_end(m, at + 1, size)
}

// The end of a vector whose length field is two bytes, of any length that these can say.
pub fn long_end(m: &[u8], at: usize) -> Option<usize>
    ensures value { result ≡ told_end (long_end m.now at) }
    ensures within { IfSome result (λ end. (0 < end) × (end ≤ length m.now)) }
{
    if m.len() <= at || m.len() <= at + 1 {
        return None;
    }
    field_end(m, at + 2, usize::from(two_at(m, at)))
}

// The number that two bytes spell, the most significant byte first; a byte that is not there counts as 0.
pub(crate) fn two_at(m: &[u8], at: usize) -> u16
    ensures { result ≡ two_at m.now at }
{
    if m.len() <= at {
        return 0;
    }
    u16::from_be_bytes([byte_at(m, at), byte_at(m, at + 1)])
}

// The byte at a place, or 0 past the end.
pub(crate) fn byte_at(m: &[u8], at: usize) -> u8
    ensures { result ≡ get_or m.now at 0 }
{
    m.get(at).copied().unwrap_or(0)
}

// The part of a message from one place to another, cut where the message ends.
pub fn part(m: &[u8], from: usize, end: usize) -> &[u8]
    ensures { result.now ≡ part_of m.now from end }
{
    if m.len() <= from || end <= from {
        return &m[..0];
    }
    if m.len() < end {
        return &m[from..];
    }
    &m[from..end]
}
