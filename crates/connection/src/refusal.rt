// The refusals of 01, each under a name of its own. 18 is not given any more (02, "A unit that rebooted"); the number stays
// reserved.
ghost use Rattle.std.specs.Prelude.{◌≡◌};
ghost use Rattle.connection.specs.Refusal.{refusal_number, unopened_as, unwritten_as};

use record::protection::{Unopened, Unwritten};
use record::reader::Fault;

#[derive(Clone, Copy)]
pub enum Refusal {
    // 1 to 5: the framing of the datagram
    Framing(Fault),
    // 6: output buffer too short
    Room,
    // 7: Barred, or Closed except for start again and close
    Ended,
    // 8: record or call not allowed in this state or place
    NotAllowed,
    // 9: code not right
    Forged,
    // 10
    TooOld,
    // 11
    Repeated,
    // 12: malformed content
    Malformed,
    // 13: hello well formed, not acceptable
    Unacceptable,
    // 14: clear alert with another checksum
    Checksum,
    // 15: sending number spent
    Spent,
    // 16: argument out of range
    Argument,
    // 17: genuine Finished with wrong contents
    WrongFinished,
}

// The number of a refusal in 01's list.
pub fn number(refusal: Refusal) -> u8
    ensures { result ≡ refusal_number refusal }
{
    match refusal {
        Refusal::Framing(fault) => record::reader::fault_number(fault),
        Refusal::Room => 6,
        Refusal::Ended => 7,
        Refusal::NotAllowed => 8,
        Refusal::Forged => 9,
        Refusal::TooOld => 10,
        Refusal::Repeated => 11,
        Refusal::Malformed => 12,
        Refusal::Unacceptable => 13,
        Refusal::Checksum => 14,
        Refusal::Spent => 15,
        Refusal::Argument => 16,
        Refusal::WrongFinished => 17,
    }
}

// 9, 10 and 11: a protected record that is not opened.
impl From<Unopened> for Refusal {
    ghost from_gives = { λ why refusal. refusal ≡ unopened_as why };

    fn from(why: Unopened) -> Refusal {
        match why {
            Unopened::Forged => Refusal::Forged,
            Unopened::TooOld => Refusal::TooOld,
            Unopened::Repeated => Refusal::Repeated,
        }
    }
}

// 15 and 6: a protected record that is not written.
impl From<Unwritten> for Refusal {
    ghost from_gives = { λ why refusal. refusal ≡ unwritten_as why };

    fn from(why: Unwritten) -> Refusal {
        match why {
            Unwritten::Spent => Refusal::Spent,
            Unwritten::NoRoom => Refusal::Room,
        }
    }
}
