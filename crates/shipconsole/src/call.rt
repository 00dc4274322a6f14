// Which call a line makes. Its words are all read here, so that a call that is run has arguments.
use callwords::call::{NUMBER, ROOM, alert_words, fresh_words, send_words};
use lines::said::{bytes_at, number_at};
use lines::words::{spaces, word};

#[derive(Clone, Copy, PartialEq, Eq, Debug)]
pub enum Call {
    Fresh,
    Hello,
    Again,
    Receive,
    Send,
    Alert,
    Close,
    Start,
}

pub fn call_of(line: &[u8]) -> Option<Call> {
    match word(line, 0) {
        b"fresh" => fresh_words(line).then_some(Call::Fresh),
        b"hello" => hello_words(line).then_some(Call::Hello),
        b"again" => again_words(line).then_some(Call::Again),
        // receive DATAGRAM ROOM: the words of a send
        b"receive" => send_words(line).then_some(Call::Receive),
        b"send" => send_words(line).then_some(Call::Send),
        b"alert" => alert_words(line).then_some(Call::Alert),
        b"close" => (spaces(line) == 0).then_some(Call::Close),
        b"start" => (spaces(line) == 0).then_some(Call::Start),
        _ => None,
    }
}

// hello RANDOM MACS REFRESH ROOM
fn hello_words(line: &[u8]) -> bool {
    spaces(line) == 4
        && bytes_at(line, 1)
        && bytes_at(line, 2)
        && number_at(line, 3, NUMBER)
        && number_at(line, 4, ROOM)
}

// again ROOM
fn again_words(line: &[u8]) -> bool {
    spaces(line) == 1 && number_at(line, 1, ROOM)
}
