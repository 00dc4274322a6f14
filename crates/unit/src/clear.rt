// Clear records but the ServerHello: change cipher spec, an alert, a HelloRequest (02, P7).
ghost use Rattle.std.specs.Prelude.{◌≡◌};
ghost use Rattle.unit.specs.Clear.{changed_by, heard_alert, request_in, requested_by};

use crate::answer::Answer;
use crate::state::State;
use crate::step::{Move, Step, lead, refuse};
use connection::refusal::Refusal;
use connection::sent::SentRecords;
use message::alert;
use message::alert::Level;
use message::change::is_change;
use message::request::is_request;
use record::window::Window;

// Change cipher spec: Spec, with an empty window.
pub(crate) fn change(window: Window, fragment: &[u8]) -> Step
    ensures { result ≡ changed_by window fragment.now }
{
    if !is_change(fragment) {
        return refuse(window, Refusal::Malformed);
    }
    lead(Answer::Spec, window.emptied(), Move::Change)
}

// A clear alert: it must match one of the records that we sent. Its level decides.
pub(crate) fn hear_alert(sent: SentRecords, window: Window, fragment: &[u8]) -> Step
    ensures { result ≡ heard_alert sent window fragment.now }
{
    match alert::read(fragment) {
        None => refuse(window, Refusal::Malformed),
        Some(a) => {
            if !sent.matches(a.checksum) {
                return refuse(window, Refusal::Checksum);
            }
            let level = a.level;
            let description = a.description;
            match level {
                Level::Warning => lead(Answer::Warning(description), window, Move::Stay),
                Level::Critical => lead(Answer::Critical(description), window, Move::Close),
                Level::Fatal => lead(Answer::Fatal(description), window, Move::Close),
            }
        }
    }
}

// A HelloRequest, clear or protected: ignored in the middle of a handshake, else reported.
pub(crate) fn request(state: State, window: Window, m: &[u8]) -> Step
    ensures { result ≡ requested_by state window m.now }
{
    if !is_request(m) {
        return refuse(window, Refusal::Malformed);
    }
    lead(request_in(state), window, Move::Stay)
}

// The table takes none in Closed and Barred.
fn request_in(state: State) -> Answer
    ensures { result ≡ request_in state }
{
    match state {
        State::Idle => Answer::Request,
        State::Sent => Answer::Ignored,
        State::Replied => Answer::Ignored,
        State::Spec => Answer::Ignored,
        State::Opening => Answer::Request,
        State::Open => Answer::Request,
        State::Closed => Answer::Refused(Refusal::Ended),
        State::Barred => Answer::Refused(Refusal::Ended),
    }
}
