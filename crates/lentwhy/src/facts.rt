// The reason of a refusal, with its facts, in its 96 bytes.
ghost use Rattle.std.specs.Prelude.{◌≡◌, length};
ghost use Rattle.lentwhy.specs.Facts.{facts_size, facts_of, head_of, numbers_of, eight_of, word, flag};
ghost use Rattle.lentwhy.specs.Facts.{under_number, field_number, condition_number};

use digest::put;
use lent::{state_number, words};
use message::acceptance::Condition;
use message::hello::Field;
use record::header::number_of;
use why::{Reason, Under, Why, number};

// How many bytes hold them.
pub(crate) const SIZE: usize = 96;

// All of them, over all the bytes.
pub(crate) fn put_facts(d: &mut [u8], w: Why)
    requires { length d.old ≡ facts_size }
    ensures { d.new ≡ facts_of w }
{
    put(d, 0, &words(head_of(w)));
    put(d, 32, &words(numbers_of(w.reason)));
    put(d, 64, &words(w.sent.checksums));
}

// What goes with every reason.
fn head_of(w: Why) -> [u32; 8]
    ensures { result ≡ head_of w }
{
    let reason = w.reason;
    let state = w.state;
    let started = w.started;
    let content = w.content;
    let sent = w.sent;
    [
        number(reason) as u32,
        state_number(state) as u32,
        state_number(started) as u32,
        number_of(content) as u32,
        flag(w.protected),
        flag(w.hello),
        word(w.place),
        sent.count,
    ]
}

// The numbers of a reason.
fn numbers_of(reason: Reason) -> [u32; 8]
    ensures { result ≡ numbers_of reason }
{
    match reason {
        Reason::NotRefused => eight_of(0, 0, 0, 0, 0, 0, 0, 0),
        Reason::Argument => eight_of(0, 0, 0, 0, 0, 0, 0, 0),
        Reason::Size { size } => eight_of(0, 0, word(size), 0, 0, 0, 0, 0),
        Reason::Header { at, left, needs } => {
            eight_of(0, 0, word(at), word(left), word(needs), 0, 0, 0)
        }
        Reason::TypeByte { at, byte } => eight_of(0, 0, word(at), byte as u32, 0, 0, 0, 0),
        Reason::Fragment { at, stated, left } => {
            eight_of(0, 0, word(at), word(stated), word(left), 0, 0, 0)
        }
        Reason::Ninth { at } => eight_of(0, 0, word(at), 0, 0, 0, 0, 0),
        Reason::Ended => eight_of(0, 0, 0, 0, 0, 0, 0, 0),
        Reason::NotAllowed => eight_of(0, 0, 0, 0, 0, 0, 0, 0),
        Reason::Forged {
            number,
            fragment,
            key,
            code,
        } => eight_of(
            1,
            0,
            number as u32,
            word(fragment),
            key as u32,
            word(code),
            0,
            0,
        ),
        Reason::ForgedTwice {
            number,
            fragment,
            started_key,
            started_code,
            open_key,
            open_code,
        } => eight_of(
            2,
            0,
            number as u32,
            word(fragment),
            started_key as u32,
            word(started_code),
            open_key as u32,
            word(open_code),
        ),
        Reason::TooOld {
            under,
            number,
            highest,
            limit,
        } => eight_of(
            under_number(under),
            0,
            number as u32,
            highest as u32,
            limit as u32,
            0,
            0,
            0,
        ),
        Reason::Repeated {
            under,
            number,
            highest,
            mark,
        } => eight_of(
            under_number(under),
            0,
            number as u32,
            highest as u32,
            mark as u32,
            0,
            0,
            0,
        ),
        Reason::BadHello { field } => eight_of(0, field_number(field), 0, 0, 0, 0, 0, 0),
        Reason::BadClear {
            size,
            first,
            second,
        } => eight_of(0, 0, 0, word(size), first as u32, second as u32, 0, 0),
        Reason::BadProtected {
            under,
            number,
            size,
            first,
            second,
        } => eight_of(
            under_number(under),
            0,
            number as u32,
            word(size),
            first as u32,
            second as u32,
            0,
            0,
        ),
        Reason::Unacceptable {
            condition,
            from,
            size,
        } => eight_of(
            0,
            condition_number(condition),
            word(from),
            word(size),
            0,
            0,
            0,
            0,
        ),
        Reason::Checksum { checksum } => eight_of(0, 0, checksum, 0, 0, 0, 0, 0),
        Reason::WrongFinished {
            under,
            number,
            from,
        } => eight_of(
            under_number(under),
            0,
            number as u32,
            word(from),
            0,
            0,
            0,
            0,
        ),
    }
}

fn eight_of(under: u32, first: u32, a: u32, b: u32, c: u32, d: u32, e: u32, f: u32) -> [u32; 8]
    ensures { result ≡ eight_of under first a b c d e f }
{
    [under, first, a, b, c, d, e, f]
}

fn under_number(under: Under) -> u32
    ensures { result ≡ under_number under }
{
    match under {
        Under::Open => 1,
        Under::Started => 2,
    }
}

fn field_number(field: Field) -> u32
    ensures { result ≡ field_number field }
{
    match field {
        Field::Size => 1,
        Field::Header => 2,
        Field::Version => 3,
        Field::Random => 4,
        Field::SessionId => 5,
        Field::ClientKeyIds => 6,
        Field::TrustedKeyIds => 7,
        Field::CipherSuites => 8,
        Field::CompressionMethods => 9,
        Field::SequenceNumberMode => 10,
        Field::KeyRefresh => 11,
        Field::Rest => 12,
    }
}

fn condition_number(condition: Condition) -> u32
    ensures { result ≡ condition_number condition }
{
    match condition {
        Condition::Version => 1,
        Condition::SessionId => 2,
        Condition::CipherSuite => 3,
        Condition::Compression => 4,
        Condition::Numbering => 5,
    }
}

fn flag(b: bool) -> u32
    ensures { result ≡ flag b }
{
    u32::from(b)
}

// As much as four bytes hold.
fn word(n: usize) -> u32
    ensures { result ≡ word n }
{
    (n % 4294967296) as u32
}
