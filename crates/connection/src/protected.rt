// Protected records: they are opened, and then their content decides (01, "Handshake").
ghost use Rattle.std.specs.Prelude.{ℕ, ◌≡◌, length};
ghost use Rattle.connection.specs.Handshake.{with_window};
ghost use Rattle.connection.specs.Protected.{opened_record, content_by, alerted_by, verified_by, finished_in};
ghost use Rattle.connection.specs.Step.{stepped_by};

use crate::answer::Answer;
use crate::handshake::Handshake;
use crate::refusal::Refusal;
use crate::state::{Kind, State};
use crate::step::{Move, Step, lead, refuse};
use message::alert::Level;
use message::finished::Unverified;
use message::{alert, finished};
use record::keys::Sense;
use record::window::Window;

// A protected record of an allowed kind: its type byte, its number, and its fragment, which stands at `at`.
pub(crate) fn open_record(
    h: Handshake,
    kind: Kind,
    byte: u8,
    number: u16,
    at: usize,
    fragment: &[u8],
) -> Step
    ensures { stepped_by h result ≡ opened_record h kind byte number at fragment.now }
{
    let protection = h.protection;
    let opening = protection.open(Sense::FromUnit, number, byte, fragment);
    match opening.opened {
        Err(why) => refuse(protection.window, Refusal::from(why)),
        Ok(size) => {
            let marked = opening.protection;
            content(h, marked.window, kind, number, at, &fragment[..size])
        }
    }
}

// The content of a genuine new record, whose number is marked in the window. (A match: each row has arguments of its own.)
fn content(h: Handshake, window: Window, kind: Kind, number: u16, at: usize, content: &[u8]) -> Step
    ensures { stepped_by h result ≡ content_by (with_window h window) kind number at content.now }
{
    match kind {
        Kind::ProtectedData => {
            if content.len() == 0 {
                return refuse(window, Refusal::Malformed);
            }
            lead(
                Answer::Data {
                    number,
                    start: at,
                    size: content.len(),
                },
                window,
                Move::Stay,
            )
        }
        Kind::ProtectedAlert => alerted(h, window, content),
        Kind::ProtectedHandshake => verified(h, window, content),
        Kind::ProtectedChange => refuse(window, Refusal::Malformed),
        Kind::ClearHello => refuse(window, Refusal::NotAllowed),
        Kind::ClearChange => refuse(window, Refusal::NotAllowed),
        Kind::ClearAlert => refuse(window, Refusal::NotAllowed),
        Kind::OtherClear => refuse(window, Refusal::NotAllowed),
    }
}

// A protected alert is trusted by its code. Its level decides: a fatal one bars the session.
fn alerted(h: Handshake, window: Window, content: &[u8]) -> Step
    ensures { stepped_by h result ≡ alerted_by (with_window h window) content.now }
{
    match alert::read(content) {
        None => refuse(window, Refusal::Malformed),
        Some(a) => {
            let level = a.level;
            let description = a.description;
            match level {
                Level::Warning => lead(Answer::Warning(description), window, Move::Stay),
                Level::Critical => lead(Answer::Critical(description), window, Move::Close),
                Level::Fatal => lead(Answer::Barred(description), window, Move::Bar),
            }
        }
    }
}

// A protected handshake record: the unit's Finished. With the right contents it opens; with others it closes.
fn verified(h: Handshake, window: Window, content: &[u8]) -> Step
    ensures { stepped_by h result ≡ verified_by (with_window h window) content.now }
{
    let expected = h.expected;
    match finished::judge(content, &expected) {
        Err(Unverified::Malformed) => refuse(window, Refusal::Malformed),
        Err(Unverified::Wrong) => lead(
            Answer::Refused(Refusal::WrongFinished),
            window,
            Move::Close,
        ),
        Ok(()) => opened(h, window),
    }
}

// Spec becomes Open; in Open the Finished came again. The table takes none in another state.
fn opened(h: Handshake, window: Window) -> Step
    ensures { stepped_by h result ≡ finished_in (with_window h window) h.state }
{
    let state = h.state;
    match state {
        State::Open => lead(Answer::Again, window, Move::Stay),
        State::Idle => refuse(window, Refusal::NotAllowed),
        State::Replied => refuse(window, Refusal::NotAllowed),
        State::Spec => lead(Answer::Open, window, Move::Open),
        State::Closed => refuse(window, Refusal::Ended),
        State::Barred => refuse(window, Refusal::Ended),
    }
}
