// What is at hand from line to line.
use arrayvec::{ArrayVec, CapacityError};
use lines::hex::push_bytes;

// The most reports of a list.
const REPORTS: usize = 5000;

// The most bytes of the reports and of the file, and of the room that a line may lend.
pub const ROOM: usize = 70000;

// A list of reports, as a file of them is written: their numbers, their sizes, and their bytes one behind the other; a file;
// and the room that a line lends.
#[derive(Drop)]
pub struct Day {
    pub numbers: ArrayVec<u16, REPORTS>,
    pub sizes: ArrayVec<usize, REPORTS>,
    pub bytes: ArrayVec<u8, ROOM>,
    pub file: ArrayVec<u8, ROOM>,
    pub room: [u8; ROOM],
}

impl Day {
    pub fn new() -> Day {
        Day {
            numbers: ArrayVec::new(),
            sizes: ArrayVec::new(),
            bytes: ArrayVec::new(),
            file: ArrayVec::new(),
            room: [0; ROOM],
        }
    }

    // Appends a report to the list, where it has room: the bytes that a byte string spells.
    pub fn report(&mut self, number: u16, word: &[u8]) -> Result<(), CapacityError> {
        if self.numbers.is_full() || self.sizes.is_full() {
            return Err(CapacityError::new(()));
        }
        let size = push_bytes(word, &mut self.bytes)?;
        self.numbers.push(number);
        self.sizes.push(size);
        Ok(())
    }

    pub fn clear(&mut self) {
        self.numbers.clear();
        self.sizes.clear();
        self.bytes.clear();
        self.file.clear();
    }
}
