// Loading: a connection from the bytes that hold it.
ghost use Rattle.std.specs.Prelude.{◌≡◌, ◌≤◌, length};
ghost use Rattle.lent.specs.Saved.{is_saved, is_handshake, state_size, handshake_size, state_numbered, connection_in, connection_within};
ghost use Rattle.lent.specs.Saved.{kept_in, handshake_in, sent_in, sent_within};
ghost use Rattle.lent.specs.Calls.{lent_for};

use crate::bytes::{bytes_within, eight_within, four_within};
use crate::parts::{protection_in, window_in};
use crate::save::{MARK, SIZE};
use connection::connection::{Connection, alone};
use connection::handshake::{Handshake, Kept, blank};
use connection::sent::SentRecords;
use connection::state::State;
use record::window::Window;

// Whether bytes are a saved connection: the size, the mark, two handshakes. Nothing else in them can be wrong.
pub fn is_saved(b: &[u8]) -> bool
    ensures exact { result ≡ is_saved b.now }
{
    if b.len() != SIZE || four_within(b, 0) != MARK {
        return false;
    }
    is_handshake(&b[40..490]) && is_handshake(&b[490..940])
}

// Whether bytes are a saved handshake: a state and a MAC kind.
#[tactic(auto, unfolding(crate::specs::Saved::is_handshake))]
fn is_handshake(s: &[u8]) -> bool
    requires { length s.now ≡ handshake_size }
    ensures { result ≡ is_handshake s.now }
{
    s[0] <= 5 && (s[61] == 2 || s[61] == 3)
}

// Whether what is lent to a receive has its sizes, and the bytes are a saved connection.
#[tactic(auto, unfolding(crate::specs::Calls::lent_for))]
pub fn lent_for(state: &[u8], counts: usize, places: usize) -> bool
    ensures exact { result ≡ lent_for state.now counts places }
{
    counts == 16 && places == 192 && is_saved(state)
}

// The connection that bytes of any size hold; a blank one where they are not as many.
pub fn connection_within(b: &[u8]) -> Connection
    ensures exact { result ≡ connection_within b.now }
{
    if b.len() != SIZE {
        return alone(blank());
    }
    connection_in(b)
}

// The connection that the bytes hold.
pub(crate) fn connection_in(b: &[u8]) -> Connection
    requires { length b.now ≡ state_size }
    ensures { result ≡ connection_in b.now }
{
    Connection {
        handshake: handshake_in(&b[40..490]),
        started: handshake_in(&b[490..940]),
        sent: sent_in(b),
    }
}

// The window of the handshake that is open, or the only one.
pub(crate) fn open_window(b: &[u8]) -> Window
    requires { length b.now ≡ state_size }
    ensures { result ≡ (connection_in b.now).handshake.protection.window }
{
    window_in(bytes_within(&b[40..490], 431))
}

// The handshake that its bytes hold.
fn handshake_in(s: &[u8]) -> Handshake
    requires { length s.now ≡ handshake_size }
    ensures { result ≡ handshake_in s.now }
{
    Handshake {
        state: state_numbered(s[0]),
        id: bytes_within(s, 1),
        expected: bytes_within(s, 63),
        kept: kept_in(s),
        protection: protection_in(bytes_within(s, 9), bytes_within(s, 431)),
    }
}

#[tactic(auto, unfolding(crate::specs::Saved::state_numbered))]
fn state_numbered(n: u8) -> State
    ensures { result ≡ state_numbered n }
{
    match n {
        0 => State::Idle,
        1 => State::Replied,
        2 => State::Spec,
        3 => State::Open,
        4 => State::Closed,
        _ => State::Barred,
    }
}

fn kept_in(s: &[u8]) -> Kept
    requires { length s.now ≡ handshake_size }
    ensures { result ≡ kept_in s.now }
{
    Kept {
        hello: bytes_within(s, 75),
        heard: eight_within(s, 331) as usize,
        reply: bytes_within(s, 339),
        size: eight_within(s, 423) as usize,
    }
}

// The records sent that bytes of any size hold behind a mark; none where they do not all stand there.
pub fn sent_within(b: &[u8]) -> SentRecords
    ensures exact { result ≡ sent_within b.now }
{
    if b.len() < 40 {
        return SentRecords::fresh();
    }
    sent_in(b)
}

fn sent_in(b: &[u8]) -> SentRecords
    requires { 40 ≤ length b.now }
    ensures { result ≡ sent_in b.now }
{
    let count = four_within(b, 4);
    let checksums = [
        four_within(b, 8),
        four_within(b, 12),
        four_within(b, 16),
        four_within(b, 20),
        four_within(b, 24),
        four_within(b, 28),
        four_within(b, 32),
        four_within(b, 36),
    ];
    SentRecords { count, checksums }
}
