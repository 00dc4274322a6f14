// Protected records: they are opened, and then their content decides (02, P7: "under the same window rules").
ghost use Rattle.std.specs.Prelude.{ℕ, ◌≡◌, length};
ghost use Rattle.unit.specs.Protected.{unprotected_by, content_by, alerted_by, warned, verified_by, finished_in, handshake_by};

use crate::answer::Answer;
use crate::clear::request;
use crate::state::{Kind, State};
use crate::step::{Move, Step, lead, refuse};
use connection::refusal::Refusal;
use digest::Mac;
use message::alert::{Description, Level};
use message::finished::Unverified;
use message::request::is_request;
use message::{alert, finished};
use record::keys::Sense;
use record::protection::Protection;
use record::window::Window;

// A protected record of an allowed kind: its type byte, its number, and its fragment, which stands at `at`.
pub(crate) fn unprotect(
    protection: Protection,
    expected: [u8; 12],
    state: State,
    kind: Kind,
    byte: u8,
    number: u16,
    at: usize,
    fragment: &[u8],
) -> Step
    ensures { result ≡ unprotected_by protection expected state kind byte number at fragment.now }
{
    let keys = protection.keys;
    let mac = keys.mac;
    let window = protection.window;
    let opening = protection.open(Sense::FromShore, number, byte, fragment);
    match opening.opened {
        Err(why) => refuse(window, Refusal::from(why)),
        Ok(size) => {
            let left = opening.protection;
            content(
                left.window,
                mac,
                expected,
                state,
                kind,
                number,
                at,
                &fragment[..size],
            )
        }
    }
}

// The content of a genuine new record, whose number is marked. (A match: each row has arguments of its own.)
fn content(
    window: Window,
    mac: Mac,
    expected: [u8; 12],
    state: State,
    kind: Kind,
    number: u16,
    at: usize,
    content: &[u8],
) -> Step
    ensures { result ≡ content_by window mac expected state kind number at content.now }
{
    match kind {
        Kind::ProtectedData => {
            if content.len() == 0 {
                return refuse(window, Refusal::Malformed);
            }
            lead(
                Answer::Data {
                    number,
                    start: at,
                    size: content.len(),
                },
                window,
                Move::Settle,
            )
        }
        Kind::ProtectedAlert => alerted(window, content),
        Kind::ProtectedHandshake => handshake(window, mac, expected, state, content),
        Kind::ProtectedChange => refuse(window, Refusal::Malformed),
        Kind::ClearHello => refuse(window, Refusal::NotAllowed),
        Kind::ClearRequest => refuse(window, Refusal::NotAllowed),
        Kind::ClearChange => refuse(window, Refusal::NotAllowed),
        Kind::ClearAlert => refuse(window, Refusal::NotAllowed),
        Kind::OtherClear => refuse(window, Refusal::NotAllowed),
    }
}

// A protected alert is trusted by its code. Its level decides: a fatal one bars the session.
fn alerted(window: Window, content: &[u8]) -> Step
    ensures { result ≡ alerted_by window content.now }
{
    match alert::read(content) {
        None => refuse(window, Refusal::Malformed),
        Some(a) => {
            let level = a.level;
            let description = a.description;
            match level {
                Level::Warning => lead(Answer::Warning(description), window, warned(description)),
                Level::Critical => lead(Answer::Critical(description), window, Move::Close),
                Level::Fatal => lead(Answer::Barred(description), window, Move::Bar),
            }
        }
    }
}

// The warning on a repeated Finished tells that the shore has ours.
fn warned(description: Description) -> Move
    ensures { result ≡ warned description }
{
    if alert::description_number(description) == 57 {
        return Move::Settle;
    }
    Move::Stay
}

// A protected handshake record: a HelloRequest, or the shore's Finished.
fn handshake(window: Window, mac: Mac, expected: [u8; 12], state: State, content: &[u8]) -> Step
    ensures { result ≡ handshake_by window mac expected state content.now }
{
    if is_request(content) {
        return request(state, window, content);
    }
    verified(window, mac, expected, state, content)
}

// With the right contents a Finished opens; with others it closes.
fn verified(window: Window, mac: Mac, expected: [u8; 12], state: State, content: &[u8]) -> Step
    ensures { result ≡ verified_by window mac expected state content.now }
{
    match finished::judge(content, &expected) {
        Err(Unverified::Malformed) => refuse(window, Refusal::Malformed),
        Err(Unverified::Wrong) => lead(
            Answer::Refused(Refusal::WrongFinished),
            window,
            Move::Close,
        ),
        Ok(()) => opened(window, mac, state),
    }
}

// Spec becomes Opening, with our flight; later the Finished came again. The table takes none in another state.
fn opened(window: Window, mac: Mac, state: State) -> Step
    ensures { result ≡ finished_in window mac state }
{
    match state {
        State::Idle => refuse(window, Refusal::NotAllowed),
        State::Sent => refuse(window, Refusal::NotAllowed),
        State::Replied => refuse(window, Refusal::NotAllowed),
        State::Spec => lead(Answer::Open(24 + mac.size()), window, Move::Finish),
        State::Opening => lead(Answer::Again, window, Move::Stay),
        State::Open => lead(Answer::Again, window, Move::Stay),
        State::Closed => refuse(window, Refusal::Ended),
        State::Barred => refuse(window, Refusal::Ended),
    }
}
