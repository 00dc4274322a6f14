// The type byte of a record (002 9.2.1): split and built by masks and shifts. Bit 0 is the most
// significant bit.
ghost use Rattle.std.specs.Prelude.{◌≡◌};
ghost use Rattle.record.specs.Header.{kind_of, byte_of, sound_kind, content_of, number_of};

// What the type byte says.
#[derive(Clone, Copy)]
pub struct Kind {
    // bit 0: the record has a length
    pub long: bool,
    // bit 1: the record has a sequence number
    pub numbered: bool,
    // bit 2: the record is under a cipher spec other than null
    pub protected: bool,
    // bit 3
    pub reserved: bool,
    // bits 4 to 7
    pub content: u8,
}

// The four kinds of content, with their numbers on the wire.
#[derive(Clone, Copy, PartialEq, Eq, Debug)]
pub enum Content {
    ChangeCipherSpec = 1,
    Alert = 2,
    Handshake = 3,
    Data = 4,
}

// The parts of a type byte.
impl From<u8> for Kind {
    ghost from_gives = { λ byte kind. kind ≡ kind_of byte };

    fn from(byte: u8) -> Self {
        Kind {
            long: (byte >> 7) & 1 == 1,
            numbered: (byte >> 6) & 1 == 1,
            protected: (byte >> 5) & 1 == 1,
            reserved: (byte >> 4) & 1 == 1,
            content: byte & 15,
        }
    }
}

// The type byte of these parts; of a content above 15 the low four bits count.
impl From<Kind> for u8 {
    ghost from_gives = { λ kind byte. byte ≡ byte_of kind };

    fn from(kind: Kind) -> u8 {
        ((kind.long as u8) << 7)
            | ((kind.numbered as u8) << 6)
            | ((kind.protected as u8) << 5)
            | ((kind.reserved as u8) << 4)
            | (kind.content & 15)
    }
}

// The content of a number; those outside 1 to 4, which no sound record has, count as data.
impl From<u8> for Content {
    ghost from_gives = { λ number content. content ≡ content_of number };

    #[tactic(auto, unfolding(crate::specs::Header::content_of))]
    fn from(number: u8) -> Self {
        match number {
            1 => Content::ChangeCipherSpec,
            2 => Content::Alert,
            3 => Content::Handshake,
            _ => Content::Data,
        }
    }
}

// The number of a content on the wire.
impl From<Content> for u8 {
    ghost from_gives = { λ content number. number ≡ number_of content };

    fn from(content: Content) -> u8 {
        content as u8
    }
}

// The parts of a type byte, as `Kind::from` gives them.
pub fn split(byte: u8) -> Kind
    ensures { result ≡ kind_of byte }
{
    Kind::from(byte)
}

// The type byte of these parts, as `u8::from` gives it.
pub fn built(kind: Kind) -> u8
    ensures { result ≡ byte_of kind }
{
    u8::from(kind)
}

// Whether a record may have this type byte: with a sequence number, the reserved bit clear, and a
// content from 1 to 4.
#[tactic(auto, unfolding(crate::specs::Header::sound_kind))]
pub fn sound(kind: Kind) -> bool
    ensures { result ≡ sound_kind kind }
{
    kind.numbered && !kind.reserved && matches!(kind.content, 1..=4)
}

// The content of a number, as `Content::from` gives it.
pub fn content_of(number: u8) -> Content
    ensures { result ≡ content_of number }
{
    Content::from(number)
}

// The number of a content on the wire, as `u8::from` gives it.
pub fn number_of(content: Content) -> u8
    ensures { result ≡ number_of content }
{
    u8::from(content)
}
