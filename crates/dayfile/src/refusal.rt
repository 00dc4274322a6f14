// Why a call is refused.
ghost use Rattle.std.specs.Prelude.{◌≡◌};
ghost use Rattle.dayfile.specs.Writing.{refusal_number};

// A report or an argument out of range; too many reports or too many bytes; too little room; bytes
// that are the file of no list. `refusal_number` gives the number of each.
#[derive(Clone, Copy, PartialEq, Eq, Debug)]
pub enum Refusal {
    Argument,
    Limit,
    Room,
    NoFile,
}

impl From<Refusal> for u8 {
    ghost from_gives = { λ refusal code. code ≡ refusal_number refusal };

    fn from(refusal: Refusal) -> u8 {
        match refusal {
            Refusal::Argument => 16,
            Refusal::Limit => 24,
            Refusal::Room => 6,
            Refusal::NoFile => 25,
        }
    }
}

pub fn number(refusal: Refusal) -> u8
    ensures exact { result ≡ refusal_number refusal }
{
    u8::from(refusal)
}
