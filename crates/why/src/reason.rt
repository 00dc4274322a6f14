// The reasons, each with its facts, and the number of each in 01's list.
ghost use Rattle.std.specs.Prelude.{◌≡◌};
ghost use Rattle.why.specs.Reason.{reason_number};

use connection::sent::SentRecords;
use connection::state::State;
use message::acceptance::Condition;
use message::hello::Field;
use record::header::Content;

// Under which keys a protected record was judged: those of the open handshake, or those of one whose Finished has not come.
#[derive(Clone, Copy)]
pub enum Under {
    Open,
    Started,
}

// Places count from the datagram's front.
#[derive(Clone, Copy)]
pub enum Reason {
    // no refusal: the first row of the list, number 0 in the lent bytes, so no Option
    NotRefused,
    // 16: the random, the edition or the index
    Argument,
    // 1: the datagram's size
    Size {
        size: usize,
    },
    // 2: where the record begins, how many bytes are left from there on, and how many its header needs
    Header {
        at: usize,
        left: usize,
        needs: usize,
    },
    // 3: where the record begins, and its type byte
    TypeByte {
        at: usize,
        byte: u8,
    },
    // 4: where the record begins, the length that its fragment should have, and how many bytes are left behind its header
    Fragment {
        at: usize,
        stated: usize,
        left: usize,
    },
    // 5: where the ninth record begins
    Ninth {
        at: usize,
    },
    // 7
    Ended,
    // 8
    NotAllowed,
    // 9: the record's number, its fragment's size, and the key number and the code size of the keys that were tried
    Forged {
        number: u16,
        fragment: usize,
        key: u16,
        code: usize,
    },
    // 9 of a record that was tried under the started keys, and then under the open ones
    ForgedTwice {
        number: u16,
        fragment: usize,
        started_key: u16,
        started_code: usize,
        open_key: u16,
        open_code: usize,
    },
    // 10: the record's number, the highest, and the highest less the width: up to there numbers are too old
    TooOld {
        under: Under,
        number: u16,
        highest: u16,
        limit: u16,
    },
    // 11: the record's number, the highest, and the place of its mark, which is set: the highest less the number
    Repeated {
        under: Under,
        number: u16,
        highest: u16,
        mark: u16,
    },
    // 12 of a hello: the first field at fault
    BadHello {
        field: Field,
    },
    // 12 of another clear record: its content's size, and what stands there (`contents`)
    BadClear {
        size: usize,
        first: u16,
        second: u16,
    },
    // 12 of a protected record: the same of its content without the code
    BadProtected {
        under: Under,
        number: u16,
        size: usize,
        first: u16,
        second: u16,
    },
    // 13: the first condition that fails, and where the bytes stand that the hello has there
    Unacceptable {
        condition: Condition,
        from: usize,
        size: usize,
    },
    // 14: the alert's checksum
    Checksum {
        checksum: u32,
    },
    // 17: where the twelve bytes stand that were found
    WrongFinished {
        under: Under,
        number: u16,
        from: usize,
    },
}

// The reason, and what goes with every reason of a record: the state of the connection there, that of the handshake started
// beside it (Idle where there is none), what the record is, its place, and the records that we sent, newest first. Where the
// datagram is refused as a whole, or 16 is, the record's facts are blank.
#[derive(Clone, Copy)]
pub struct Why {
    pub reason: Reason,
    pub state: State,
    pub started: State,
    pub content: Content,
    pub protected: bool,
    // a clear handshake record that begins with byte 1
    pub hello: bool,
    pub place: usize,
    pub sent: SentRecords,
}

// The number of the refusal, 0 where there is none.
pub fn number(reason: Reason) -> u8
    ensures exact { result ≡ reason_number reason }
{
    match reason {
        Reason::NotRefused => 0,
        Reason::Argument => 16,
        Reason::Size { size: _ } => 1,
        Reason::Header {
            at: _,
            left: _,
            needs: _,
        } => 2,
        Reason::TypeByte { at: _, byte: _ } => 3,
        Reason::Fragment {
            at: _,
            stated: _,
            left: _,
        } => 4,
        Reason::Ninth { at: _ } => 5,
        Reason::Ended => 7,
        Reason::NotAllowed => 8,
        Reason::Forged {
            number: _,
            fragment: _,
            key: _,
            code: _,
        } => 9,
        Reason::ForgedTwice {
            number: _,
            fragment: _,
            started_key: _,
            started_code: _,
            open_key: _,
            open_code: _,
        } => 9,
        Reason::TooOld {
            under: _,
            number: _,
            highest: _,
            limit: _,
        } => 10,
        Reason::Repeated {
            under: _,
            number: _,
            highest: _,
            mark: _,
        } => 11,
        Reason::BadHello { field: _ } => 12,
        Reason::BadClear {
            size: _,
            first: _,
            second: _,
        } => 12,
        Reason::BadProtected {
            under: _,
            number: _,
            size: _,
            first: _,
            second: _,
        } => 12,
        Reason::Unacceptable {
            condition: _,
            from: _,
            size: _,
        } => 13,
        Reason::Checksum { checksum: _ } => 14,
        Reason::WrongFinished {
            under: _,
            number: _,
            from: _,
        } => 17,
    }
}
