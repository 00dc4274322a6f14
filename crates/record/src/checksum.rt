// The checksum that an alert carries (002 10.2): four bytes, here as the number that they spell.
ghost use Rattle.std.specs.Prelude.{◌≡◌, ◌+◌, ◌*◌, ◌≤◌, ◌<◌, length};
ghost use Rattle.digest.specs.Bytes.{word_at};
ghost use Rattle.record.specs.Checksum.{checksum_of, padded};

// The checksum of any stretch of bytes.
pub fn checksum(s: &[u8]) -> u32
    ensures { result ≡ word_at (checksum_of s.now) 0 }
{
    let (blocks, rest) = s.as_chunks::<4>();
    let mut sum: u32 = 0;
    for block in blocks {
        sum ^= u32::from_be_bytes(*block);
    }
    sum ^ last(rest)
}

// The last block: what is left of the bytes, and zeros.
fn last(s: &[u8]) -> u32
    requires { length s.now < 4 }
    ensures { result ≡ word_at (padded s.now) 0 }
{
    let mut block = [0u8; 4];
    block[..s.len()].copy_from_slice(s);
    u32::from_be_bytes(block)
}
