// The MAC kinds of the profile (002 appendix A, table 6), and the comparison of codes.
ghost use Rattle.std.specs.Prelude.{◌≡◌, take};
ghost use Rattle.digest.specs.Mac.{number_of, size_of, listed_as, same_bytes};
ghost use Rattle.digest.specs.Mac.{secret_size, client_expansion, server_expansion};

// SHA_80: the first ten bytes of the code. SHA: all twenty.
#[derive(Clone, Copy, PartialEq, Eq, Debug)]
pub enum Mac {
    Sha80,
    Sha,
}

impl Mac {
    // How many bytes of the code each kind sends.
    pub const SHA80_SIZE: usize = 10;

    pub const SHA_SIZE: usize = 20;

    // The MAC secret of either kind, in bytes.
    pub const SECRET_SIZE: usize = 20;

    // The labels under which the secrets of each direction are expanded (002 section 11.2).
    pub const CLIENT_EXPANSION: [u8; 16] = *b"client expansion";

    pub const SERVER_EXPANSION: [u8; 16] = *b"server expansion";

    // The assigned number.
    pub fn number(self) -> u8
        ensures exact { result ≡ number_of self }
    {
        match self {
            Mac::Sha80 => 2,
            Mac::Sha => 3,
        }
    }

    // The size of the code.
    pub fn size(self) -> usize
        ensures exact { result ≡ size_of self }
    {
        match self {
            Mac::Sha80 => Mac::SHA80_SIZE,
            Mac::Sha => Mac::SHA_SIZE,
        }
    }

    // The size of the MAC secret, whatever the kind.
    pub fn secret_size() -> usize
        ensures exact { result ≡ secret_size }
    {
        Mac::SECRET_SIZE
    }

    // The label of what the client sends.
    pub fn client_expansion() -> [u8; 16]
        ensures exact { result ≡ client_expansion }
    {
        Mac::CLIENT_EXPANSION
    }

    // The label of what the server sends.
    pub fn server_expansion() -> [u8; 16]
        ensures exact { result ≡ server_expansion }
    {
        Mac::SERVER_EXPANSION
    }

    // What is sent of a code: its first bytes. Of bytes that are too few, all.
    pub fn cut<'a>(self, code: &'a [u8]) -> &'a [u8]
        ensures exact { result.now ≡ take (size_of self) code.now }
    {
        let n = self.size();
        if n <= code.len() { &code[..n] } else { code }
    }

    // The kind of an assigned number, where the profile has it.
    pub fn listed(n: u8) -> Option<Mac>
        ensures exact { result ≡ listed_as n }
    {
        match n {
            2 => Some(Mac::Sha80),
            3 => Some(Mac::Sha),
            _ => None,
        }
    }
}

// Whether two codes are the same. All bytes are looked at, wherever the first difference stands.
pub fn same_code(a: &[u8], b: &[u8]) -> bool
    ensures exact { result ≡ same_bytes a.now b.now }
{
    if a.len() != b.len() {
        return false;
    }
    let mut differ: u8 = 0;
    for (x, y) in a.iter().zip(b) {
        differ |= x ^ y;
    }
    differ == 0
}
