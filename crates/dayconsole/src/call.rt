// Which call a line makes. Its words are all read here, so that a call that is run has arguments.
use crate::day::ROOM;
use lines::said::{bytes_at, number_at};
use lines::words::{spaces, word};

#[derive(Clone, Copy, PartialEq, Eq, Debug)]
pub enum Call {
    Report,
    File,
    Clear,
    Write,
    Read,
    Mend,
}

pub fn call_of(line: &[u8]) -> Option<Call> {
    match word(line, 0) {
        b"report" => report_words(line).then_some(Call::Report),
        b"file" => file_words(line).then_some(Call::File),
        b"write" => room_words(line).then_some(Call::Write),
        b"mend" => room_words(line).then_some(Call::Mend),
        b"clear" => (spaces(line) == 0).then_some(Call::Clear),
        b"read" => (spaces(line) == 0).then_some(Call::Read),
        _ => None,
    }
}

// report NUMBER BYTES
fn report_words(line: &[u8]) -> bool {
    spaces(line) == 2 && number_at(line, 1, 65535) && bytes_at(line, 2)
}

// file BYTES
fn file_words(line: &[u8]) -> bool {
    spaces(line) == 1 && bytes_at(line, 1)
}

// write ROOM, mend ROOM
fn room_words(line: &[u8]) -> bool {
    spaces(line) == 1 && number_at(line, 1, ROOM)
}
