// Clear records: a ClientHello, change cipher spec, an alert (01, "Handshake" and "Alerts").
ghost use Rattle.std.specs.Prelude.{ℕ, ◌≡◌, length};
ghost use Rattle.connection.specs.Clear.{greeted_by, greeted_again, resent_by, is_kept, kept_size, changed_by, heard_alert};
ghost use Rattle.connection.specs.Step.{stepped_by};

use crate::answer::{Answer, Judged, refuse};
use crate::handshake::{Handshake, Kept};
use crate::refusal::Refusal;
use crate::reply::answered;
use crate::sent::SentRecords;
use crate::step;
use crate::step::{Move, Step};
use message::acceptance::{Unheard, hear};
use message::alert;
use message::alert::Level;
use message::change::is_change;

// A ClientHello: a new reply if it is acceptable.
pub(crate) fn greet(h: Handshake, random: [u8; 16], m: &[u8]) -> Judged
    requires { length random ≡ 16 }
    ensures { result ≡ greeted_by h random m.now }
{
    let id = h.id;
    match hear(m, &id) {
        Err(Unheard::Malformed(_)) => refuse(h, Refusal::Malformed),
        Err(Unheard::Unacceptable(_)) => refuse(h, Refusal::Unacceptable),
        Ok(plan) => {
            let left = answered(h, random, m, plan);
            let kept = left.kept;
            Judged {
                answer: Answer::Reply(kept.size),
                handshake: left,
            }
        }
    }
}

// The same ClientHello message gets the same reply bytes; another is greeted as a first one.
pub(crate) fn greet_again(h: Handshake, random: [u8; 16], m: &[u8]) -> Judged
    requires { length random ≡ 16 }
    ensures { result ≡ greeted_again h random m.now }
{
    let kept = h.kept;
    if same_hello(kept, m) {
        return Judged {
            answer: Answer::Resent(kept_size(kept)),
            handshake: h,
        };
    }
    greet(h, random, m)
}

// In Open: the hello that made the connection gets its reply again.
pub(crate) fn resend(h: Handshake, m: &[u8]) -> Judged
    ensures { result ≡ resent_by h m.now }
{
    let kept = h.kept;
    if same_hello(kept, m) {
        return Judged {
            answer: Answer::Resent(kept_size(kept)),
            handshake: h,
        };
    }
    refuse(h, Refusal::NotAllowed)
}

// Whether m is the kept hello.
pub(crate) fn same_hello(kept: Kept, m: &[u8]) -> bool
    ensures { result ≡ is_kept kept m.now }
{
    let hello = kept.hello;
    let heard = kept.heard;
    if 256 < heard {
        return digest::same_code(m, &hello);
    }
    digest::same_code(m, &hello[..heard])
}

// How many bytes the kept reply has.
fn kept_size(kept: Kept) -> usize
    ensures { result ≡ kept_size kept }
{
    let size = kept.size;
    if 84 < size {
        return 84;
    }
    size
}

// Change cipher spec: Spec, with an empty window.
pub(crate) fn change(h: Handshake, fragment: &[u8]) -> Step
    ensures { stepped_by h result ≡ changed_by h fragment.now }
{
    let protection = h.protection;
    let window = protection.window;
    if !is_change(fragment) {
        return step::refuse(window, Refusal::Malformed);
    }
    step::lead(Answer::Spec, window.emptied(), Move::Change)
}

// A clear alert: it must match one of the records that we sent. Its level decides.
pub(crate) fn hear_alert(h: Handshake, sent: SentRecords, fragment: &[u8]) -> Step
    ensures { stepped_by h result ≡ heard_alert h sent fragment.now }
{
    let protection = h.protection;
    let window = protection.window;
    match alert::read(fragment) {
        None => step::refuse(window, Refusal::Malformed),
        Some(a) => {
            if !sent.matches(a.checksum) {
                return step::refuse(window, Refusal::Checksum);
            }
            let level = a.level;
            let description = a.description;
            match level {
                Level::Warning => step::lead(Answer::Warning(description), window, Move::Stay),
                Level::Critical => step::lead(Answer::Critical(description), window, Move::Close),
                Level::Fatal => step::lead(Answer::Fatal(description), window, Move::Close),
            }
        }
    }
}
