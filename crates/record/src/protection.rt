// One protection, which both ends use: what the keys are made of, the window of the numbers that came in, and
// the numbers that go out next (002 9.2.3.1, 9.2.3.2 and 11.2). Its two acts are to open a protected record and
// to write one. Every value of it is safe to pass in.
ghost use Rattle.std.specs.Prelude.{◌≡◌, ◌≤◌, length};
ghost use Rattle.record.specs.Protection.{unopened_of, opening_by, opened_by, wrote_by, output_by, wrote_size, with_window, counted_on};

use crate::code::{genuine, write_coded};
use crate::header::Content;
use crate::keys::{Keys, Sense};
use crate::window::{NotNew, Window};
use crate::written::Head;

// The last number that a record may have.
const LAST: u32 = 65535;

// The next protected and clear numbers are 65,536 once spent.
#[derive(Clone, Copy)]
pub struct Protection {
    pub keys: Keys,
    pub window: Window,
    pub protected: u32,
    pub clear: u32,
}

// Why a protected record is not opened.
#[derive(Clone, Copy, PartialEq, Eq, Debug)]
pub enum Unopened {
    Forged,
    TooOld,
    Repeated,
}

impl From<NotNew> for Unopened {
    ghost from_gives = { λ why told. told ≡ unopened_of why };

    fn from(why: NotNew) -> Self {
        match why {
            NotNew::TooOld => Unopened::TooOld,
            NotNew::Repeated => Unopened::Repeated,
        }
    }
}

// What becomes of a protected record, and the protection that it leaves. Of a new one so many bytes of the fragment are
// its content: they stand at the front, the code behind them. A new number has its mark, and nothing else changes.
#[derive(Clone, Copy)]
pub struct Opening {
    pub opened: Result<usize, Unopened>,
    pub protection: Protection,
}

// Why a record is not written: the numbers are spent, or the room is too small.
#[derive(Clone, Copy, PartialEq, Eq, Debug)]
pub enum Unwritten {
    Spent,
    NoRoom,
}

// What becomes of a record that is to be written, and the protection after it: so many bytes of it stand at the front of
// the output.
#[derive(Clone, Copy)]
pub struct Writing {
    pub wrote: Result<usize, Unwritten>,
    pub protection: Protection,
}

impl Writing {
    // How many bytes stand at the front of the output.
    pub fn size(self) -> usize
        ensures { result ≡ wrote_size self.wrote }
    {
        self.wrote.unwrap_or(0)
    }
}

impl Protection {
    // Opens a record that came in: its code under the key of its own number, then the window. The window is looked at
    // only after the code is right.
    pub fn open(self, sense: Sense, number: u16, byte: u8, fragment: &[u8]) -> Opening
        ensures { result ≡ opened_by self sense number byte fragment.now }
    {
        match self.judged(sense, number, byte, fragment) {
            Err(why) => Opening {
                opened: Err(why),
                protection: self,
            },
            Ok((size, window)) => Opening {
                opened: Ok(size),
                protection: self.with_window(window),
            },
        }
    }

    // The size of the content of a record that is opened, and the window with the mark of its number.
    fn judged(
        self,
        sense: Sense,
        number: u16,
        byte: u8,
        fragment: &[u8],
    ) -> Result<(usize, Window), Unopened>
        ensures { opening_by self result ≡ opened_by self sense number byte fragment.now }
    {
        let mac = self.keys.mac;
        let key = self.keys.key(sense, number);
        if !genuine(key, mac, number, byte, fragment) {
            return Err(Unopened::Forged);
        }
        let size = fragment.len() - mac.size();
        let (marked, _) = self.window.accept(number)?;
        Ok((size, marked))
    }

    // Writes the next record, without a length. Where it is not written, no byte of the output is touched.
    pub fn write(self, sense: Sense, content: Content, body: &[u8], out: &mut [u8]) -> Writing
        ensures exact { result ≡ wrote_by self sense content body.now (length out.old) }
        ensures bytes { out.new ≡ output_by self sense content body.now out.old }
    {
        if LAST < self.protected {
            return Writing {
                wrote: Err(Unwritten::Spent),
                protection: self,
            };
        }
        let number = self.protected as u16;
        let key = self.keys.key(sense, number);
        let head = Head {
            long: false,
            protected: true,
            content,
            number,
        };
        match write_coded(key, self.keys.mac, head, body, out) {
            None => Writing {
                wrote: Err(Unwritten::NoRoom),
                protection: self,
            },
            Some(size) => Writing {
                wrote: Ok(size),
                protection: self.counted_on(),
            },
        }
    }

    // The protection with another window.
    pub fn with_window(self, window: Window) -> Protection
        ensures { result ≡ with_window self window }
    {
        Protection { window, ..self }
    }

    // The protection after a record was written.
    fn counted_on(self) -> Protection
        requires { self.protected ≤ 65535 }
        ensures { result ≡ counted_on self }
    {
        Protection {
            protected: self.protected + 1,
            ..self
        }
    }
}
