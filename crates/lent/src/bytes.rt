// Numbers spelled as bytes, the most significant first, and read back; bytes read from a place.
ghost use Rattle.std.specs.Prelude.{◌≡◌};
ghost use Rattle.digest.specs.Bytes.{bytes2, bytes4, bytes8};
ghost use Rattle.lent.specs.Fields.{bytes_within, two_within, four_within, eight_within};

pub fn two(x: u16) -> [u8; 2]
    ensures exact { result ≡ bytes2 x }
{
    x.to_be_bytes()
}

pub fn four(x: u32) -> [u8; 4]
    ensures exact { result ≡ bytes4 x }
{
    x.to_be_bytes()
}

pub fn eight(x: u64) -> [u8; 8]
    ensures exact { result ≡ bytes8 x }
{
    x.to_be_bytes()
}

// N bytes from a place on, for whoever has not tested that they all stand there; else zeros.
pub fn bytes_within<const N: usize>(b: &[u8], at: usize) -> [u8; N]
    ensures exact { result ≡ bytes_within b.now at N }
{
    let mut bytes = [0; N];
    if N <= b.len() && at <= b.len() - N {
        bytes.copy_from_slice(&b[at..at + N]);
    }
    bytes
}

// The numbers that two bytes, four and eight from a place on spell; else 0.
pub fn two_within(b: &[u8], at: usize) -> u16
    ensures exact { result ≡ two_within b.now at }
{
    u16::from_be_bytes(bytes_within(b, at))
}

pub fn four_within(b: &[u8], at: usize) -> u32
    ensures exact { result ≡ four_within b.now at }
{
    u32::from_be_bytes(bytes_within(b, at))
}

pub fn eight_within(b: &[u8], at: usize) -> u64
    ensures exact { result ≡ eight_within b.now at }
{
    u64::from_be_bytes(bytes_within(b, at))
}
