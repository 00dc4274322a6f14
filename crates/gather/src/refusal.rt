// Why a short message is refused.
ghost use Rattle.std.specs.Prelude.{◌≡◌};
ghost use Rattle.gather.specs.Refusal.{refusal_number};

#[derive(Clone, Copy, PartialEq, Eq, Debug)]
pub enum Refusal {
    // the store lent is too short
    Argument,
    // the assembly buffer is too short
    Room,
    // no ports, an element past its end or of wrong length, a total over eleven, place 0 or above the total
    Header,
    // the same place with other bytes, or the same reference with another total
    Differs,
    // a new reference while all four are in use
    Full,
    // parts over 1,400 bytes together with this one
    Long,
}

impl From<Refusal> for u8 {
    ghost from_gives = { λ refusal n. n ≡ refusal_number refusal };

    fn from(refusal: Refusal) -> u8 {
        match refusal {
            Refusal::Argument => 16,
            Refusal::Room => 6,
            Refusal::Header => 19,
            Refusal::Differs => 20,
            Refusal::Full => 21,
            Refusal::Long => 22,
        }
    }
}

// The refusal number.
pub fn refusal_number(refusal: Refusal) -> u8
    ensures exact { result ≡ refusal_number refusal }
{
    u8::from(refusal)
}
