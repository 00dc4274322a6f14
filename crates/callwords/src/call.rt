// Which call a line makes.
ghost use Rattle.std.specs.Prelude.{◌≡◌};
ghost use Rattle.callwords.specs.Call.{fresh_words, receive_words, send_words, is_sense, alert_words, mac_words, set_words, why_words, needs_connection, call_of, call_in};

use lines::said::{bytes_at, named, number_at};
use lines::words::spaces;

// The most bytes of output that a line may lend.
pub const ROOM: usize = 2048;

// The most that nine digits spell.
pub const NUMBER: usize = 999999999;

// A call of the console, but for those of short messages (short.rt).
#[derive(Clone, Copy, PartialEq, Eq, Debug)]
pub enum Call {
    Fresh,
    Receive,
    Send,
    Alert,
    Close,
    Start,
    Mac,
    Set,
    Why,
}

// Any call but `fresh`, `mac` and `set` needs a connection.
pub fn call_in(connected: bool, call: Option<Call>) -> Option<Call>
    ensures { result ≡ call_in connected call }
{
    call.filter(|call| connected || !needs_connection(*call))
}

fn needs_connection(call: Call) -> bool
    ensures { result ≡ needs_connection call }
{
    match call {
        Call::Fresh | Call::Mac | Call::Set => false,
        Call::Receive | Call::Send | Call::Alert | Call::Close | Call::Start | Call::Why => true,
    }
}

// The call that a line makes. Its words are all read here, so that a call that is run has arguments. No `match` on the word: it is
// proved byte by byte, and leaves a goal at each.
#[tactic(auto, unfolding(crate::specs::Call::call_of))]
pub fn call_of(line: &[u8]) -> Option<Call>
    ensures { result ≡ call_of line.now }
{
    if named(line, 0, b"fresh") {
        return fresh_words(line).then_some(Call::Fresh);
    }
    if named(line, 0, b"receive") {
        return receive_words(line).then_some(Call::Receive);
    }
    if named(line, 0, b"send") {
        return send_words(line).then_some(Call::Send);
    }
    if named(line, 0, b"alert") {
        return alert_words(line).then_some(Call::Alert);
    }
    if named(line, 0, b"close") {
        return (spaces(line) == 0).then_some(Call::Close);
    }
    if named(line, 0, b"start") {
        return (spaces(line) == 0).then_some(Call::Start);
    }
    if named(line, 0, b"mac") {
        return mac_words(line).then_some(Call::Mac);
    }
    if named(line, 0, b"set") {
        return set_words(line).then_some(Call::Set);
    }
    if named(line, 0, b"why") {
        return why_words(line).then_some(Call::Why);
    }
    None
}

// All words of a line are looked at, by `&`, so that a proof has one value to state, word by word.

// fresh ID SECRET WIDTH
pub fn fresh_words(line: &[u8]) -> bool
    ensures { result ≡ fresh_words line.now }
{
    (spaces(line) == 3) & bytes_at(line, 1) & bytes_at(line, 2) & number_at(line, 3, NUMBER)
}

// receive DATAGRAM RANDOM ROOM
pub(crate) fn receive_words(line: &[u8]) -> bool
    ensures { result ≡ receive_words line.now }
{
    (spaces(line) == 3) & bytes_at(line, 1) & bytes_at(line, 2) & number_at(line, 3, ROOM)
}

// send DATA ROOM
pub fn send_words(line: &[u8]) -> bool
    ensures { result ≡ send_words line.now }
{
    (spaces(line) == 2) & bytes_at(line, 1) & number_at(line, 2, ROOM)
}

// alert clear|protected LEVEL DESCRIPTION RECORD ROOM
pub fn alert_words(line: &[u8]) -> bool
    ensures { result ≡ alert_words line.now }
{
    (spaces(line) == 5)
        & is_sense(line)
        & number_at(line, 2, 255)
        & number_at(line, 3, 255)
        & bytes_at(line, 4)
        & number_at(line, 5, ROOM)
}

// clear|protected
fn is_sense(line: &[u8]) -> bool
    ensures { result ≡ is_sense line.now }
{
    named(line, 1, b"clear") || named(line, 1, b"protected")
}

// mac EDITION NUMBER
fn mac_words(line: &[u8]) -> bool
    ensures { result ≡ mac_words line.now }
{
    (spaces(line) == 2) & number_at(line, 1, 255) & number_at(line, 2, 255)
}

// set SUITE BYTES
fn set_words(line: &[u8]) -> bool
    ensures { result ≡ set_words line.now }
{
    (spaces(line) == 2) & number_at(line, 1, 255) & bytes_at(line, 2)
}

// why EDITION DATAGRAM RANDOM INDEX
fn why_words(line: &[u8]) -> bool
    ensures { result ≡ why_words line.now }
{
    (spaces(line) == 4)
        & number_at(line, 1, 255)
        & bytes_at(line, 2)
        & bytes_at(line, 3)
        & number_at(line, 4, NUMBER)
}
