// The call: the reason of a record, with the state, the record's kind and its place.
ghost use Rattle.std.specs.Prelude.{◌≡◌, ℕ, ◌+◌, ◌-◌, ◌≤◌, length, take};
ghost use Rattle.digest.specs.Bytes.{word_at};
ghost use Rattle.connection.specs.Judge.{fragment_of, kind_in};
ghost use Rattle.connection.specs.Asked.{asked_of};
ghost use Rattle.why.specs.Contents.{bad_protected};
ghost use Rattle.why.specs.Why.{why_of, why_whole, why_record, answer_reason, reason_at, reason_by, malformed_by, is_hello, is_edition};

use crate::contents::{first_of, second_of};
use crate::framing::{byte_at, fault_reason};
use crate::hello::{field_of, unmet};
use crate::opening::{forged, repeated, too_old, under_of};
use crate::reason::{Reason, Under, Why};
use connection::answer::Answer;
use connection::asked::Whom;
use connection::connection::Connection;
use connection::handshake::Handshake;
use connection::point::{Point, asked_at, point_at};
use connection::receive::Untaken;
use connection::refusal::Refusal;
use connection::state::{Kind, kind_of};
use record::header::Content;
use record::reader::Record;

// Why the record at an index of a datagram is refused. The edition is that of the list of MAC kinds, 1 or 2, by which the
// pairs of a hello are then named. Refusals: 16 for the edition and for the random, 1 to 5 at every index, then 16 for an
// index past the last record.
pub fn why(edition: u32, c: Connection, datagram: &[u8], random: &[u8], index: usize) -> Why
    ensures exact { result ≡ why_of edition c datagram.now random.now index }
{
    if !is_edition(edition) {
        return whole(c, Reason::Argument);
    }
    let p = point_at(c, datagram, random, index);
    match p.taken {
        Ok(_) => of_record(p, datagram, index),
        Err(untaken) => match untaken {
            Untaken::Refused(refusal) => whole(p.connection, reason_at(p, datagram, 0, refusal)),
            Untaken::Misframed(refusal, at) => whole(
                p.connection,
                reason_at(p, datagram, at, refusal),
            ),
        },
    }
}

fn is_edition(edition: u32) -> bool
    ensures { result ≡ is_edition edition }
{
    if edition == 1 {
        return true;
    }
    edition == 2
}

// A reason of no record.
fn whole(c: Connection, reason: Reason) -> Why
    ensures { result ≡ why_whole c reason }
{
    let h = c.handshake;
    let state = h.state;
    let s = c.started;
    let started = s.state;
    let sent = c.sent;
    Why {
        reason,
        state,
        started,
        content: Content::ChangeCipherSpec,
        protected: false,
        hello: false,
        place: 0,
        sent,
    }
}

// The reason of a record, if it is refused.
fn of_record(p: Point, d: &[u8], index: usize) -> Why
    requires { p.found.start + p.found.head + p.found.size ≤ length d.now }
    ensures { result ≡ why_record p d.now index }
{
    let answer = p.answer;
    let reason = of_answer(p, d, answer);
    let r = p.found;
    let content = r.content;
    let c = p.connection;
    let h = c.handshake;
    let state = h.state;
    let s = c.started;
    let started = s.state;
    let sent = c.sent;
    Why {
        reason,
        state,
        started,
        content,
        protected: r.protected,
        hello: is_hello(kind_in(d, r)),
        place: index,
        sent,
    }
}

fn of_answer(p: Point, d: &[u8], answer: Answer) -> Reason
    requires { p.found.start + p.found.head + p.found.size ≤ length d.now }
    ensures { result ≡ answer_reason p d.now answer }
{
    match answer {
        Answer::Nothing => Reason::NotRefused,
        Answer::Reply(_) => Reason::NotRefused,
        Answer::Resent(_) => Reason::NotRefused,
        Answer::Spec => Reason::NotRefused,
        Answer::Open => Reason::NotRefused,
        Answer::Again => Reason::NotRefused,
        Answer::Data {
            number: _,
            start: _,
            size: _,
        } => Reason::NotRefused,
        Answer::Warning(_) => Reason::NotRefused,
        Answer::Critical(_) => Reason::NotRefused,
        Answer::Fatal(_) => Reason::NotRefused,
        Answer::Barred(_) => Reason::NotRefused,
        Answer::Refused(refusal) => {
            let r = p.found;
            reason_at(p, d, r.start, refusal)
        }
    }
}

// The reason of a refusal: 1 to 5 at the offset `at`, the others of the record.
fn reason_at(p: Point, d: &[u8], at: usize, refusal: Refusal) -> Reason
    requires { p.found.start + p.found.head + p.found.size ≤ length d.now }
    ensures { result ≡ reason_at p d.now at refusal }
{
    let whom = p.whom;
    reason_by(asked_at(p), whom, p.connection, p.found, d, at, refusal)
}

fn reason_by(
    asked: Handshake,
    whom: Whom,
    c: Connection,
    r: Record,
    d: &[u8],
    at: usize,
    refusal: Refusal,
) -> Reason
    requires { r.start + r.head + r.size ≤ length d.now }
    ensures { result ≡ reason_by asked whom c r d.now at refusal }
{
    let from = r.start + r.head;
    let protection = asked.protection;
    match refusal {
        Refusal::Framing(fault) => fault_reason(d, at, fault),
        Refusal::Room => Reason::NotRefused,
        Refusal::Ended => Reason::Ended,
        Refusal::NotAllowed => Reason::NotAllowed,
        Refusal::Forged => forged(c, whom, protection.keys, r),
        Refusal::TooOld => too_old(under_of(whom), r.number, protection.window),
        Refusal::Repeated => repeated(under_of(whom), r.number, protection.window),
        Refusal::Malformed => malformed(asked, whom, d, r),
        Refusal::Unacceptable => {
            let planted = asked.id;
            unmet(from, &d[from..from + r.size], &planted)
        }
        Refusal::Checksum => Reason::Checksum {
            checksum: word_at(&d[from..from + r.size]),
        },
        Refusal::Spent => Reason::NotRefused,
        Refusal::Argument => Reason::Argument,
        Refusal::WrongFinished => Reason::WrongFinished {
            under: under_of(whom),
            number: r.number,
            from: from + 3,
        },
    }
}

// 12: the content of a protected record without its code, the field of a hello, or another clear content.
fn malformed(asked: Handshake, whom: Whom, d: &[u8], r: Record) -> Reason
    requires { r.start + r.head + r.size ≤ length d.now }
    ensures { result ≡ malformed_by asked whom d.now r }
{
    let from = r.start + r.head;
    let fragment = &d[from..from + r.size];
    let content = r.content;
    if r.protected {
        let protection = asked.protection;
        let keys = protection.keys;
        let mac = keys.mac;
        return bad_protected(
            under_of(whom),
            r.number,
            content,
            without_code(fragment, mac.size()),
        );
    }
    if is_hello(kind_in(d, r)) {
        return Reason::BadHello {
            field: field_of(fragment),
        };
    }
    Reason::BadClear {
        size: fragment.len(),
        first: first_of(content, fragment),
        second: second_of(content, fragment),
    }
}

fn bad_protected(under: Under, number: u16, content: Content, m: &[u8]) -> Reason
    ensures { result ≡ bad_protected under number content m.now }
{
    Reason::BadProtected {
        under,
        number,
        size: m.len(),
        first: first_of(content, m),
        second: second_of(content, m),
    }
}

// The content of a protected fragment, whose code has this size.
fn without_code(fragment: &[u8], code: usize) -> &[u8]
    ensures { result.now ≡ take (length fragment.now - code) fragment.now }
{
    if fragment.len() < code {
        return &fragment[..0];
    }
    &fragment[..fragment.len() - code]
}

// The checksum that an alert has behind its level and its description.
fn word_at(m: &[u8]) -> u32
    ensures { result ≡ word_at m.now 2 }
{
    let a = byte_at(m, 2) as u32;
    let b = byte_at(m, 3) as u32;
    let c = byte_at(m, 4) as u32;
    let d = byte_at(m, 5) as u32;
    ((a * 256 + b) * 256 + c) * 256 + d
}

// What a record is, as the state table tells records apart.
fn kind_in(d: &[u8], r: Record) -> Kind
    requires { r.start + r.head + r.size ≤ length d.now }
    ensures { result ≡ kind_in d.now r }
{
    let from = r.start + r.head;
    let content = r.content;
    kind_of(content, r.protected, byte_at(&d[from..from + r.size], 0))
}

fn is_hello(kind: Kind) -> bool
    ensures { result ≡ is_hello kind }
{
    match kind {
        Kind::ClearHello => true,
        Kind::ClearChange => false,
        Kind::ClearAlert => false,
        Kind::OtherClear => false,
        Kind::ProtectedChange => false,
        Kind::ProtectedAlert => false,
        Kind::ProtectedHandshake => false,
        Kind::ProtectedData => false,
    }
}
