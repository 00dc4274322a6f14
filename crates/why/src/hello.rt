// The facts of a hello that is refused.
ghost use Rattle.std.specs.Prelude.{◌≡◌, ℕ, ◌+◌, ◌≤◌, length};
ghost use Rattle.why.specs.Hello.{field_of, condition_in, place_in, field_for, unmet_of};

use crate::framing::less;
use crate::reason::Reason;
use message::acceptance::{Condition, Plan, Unheard, hear};
use message::hello;
use message::hello::{Field, Hello, Place};

// The first field at fault of a malformed hello, its size asked first.
pub(crate) fn field_of(m: &[u8]) -> Field
    ensures { result ≡ field_of m.now }
{
    if 256 < m.len() {
        return Field::Size;
    }
    match hello::read(m) {
        Ok(_) => Field::Rest,
        Err(fault) => fault,
    }
}

// The first condition that a hello, which stands at `at`, does not meet, and where the bytes are that it has there.
pub(crate) fn unmet(at: usize, m: &[u8], planted: &[u8]) -> Reason
    requires { at + length m.now ≤ 9223372036854775807 }
    ensures { result ≡ unmet_of at m.now planted.now }
{
    let condition = condition_in(hear(m, planted));
    let place = place_in(hello::read(m), condition);
    Reason::Unacceptable {
        condition,
        from: at + place.from,
        size: less(place.end, place.from),
    }
}

fn condition_in(heard: Result<Plan, Unheard>) -> Condition
    ensures { result ≡ condition_in heard }
{
    match heard {
        Ok(_) => Condition::Numbering,
        Err(Unheard::Unacceptable(condition)) => condition,
        Err(Unheard::Malformed(_)) => Condition::Numbering,
    }
}

fn place_in(reading: Result<Hello, Field>, condition: Condition) -> Place
    ensures { result ≡ place_in reading condition }
{
    match reading {
        Ok(h) => field_for(h, condition),
        Err(_) => Place { from: 0, end: 0 },
    }
}

fn field_for(h: Hello, condition: Condition) -> Place
    ensures { result ≡ field_for h condition }
{
    match condition {
        Condition::Version => h.version,
        Condition::SessionId => h.session,
        Condition::CipherSuite => h.suites,
        Condition::Compression => h.methods,
        Condition::Numbering => h.numbering,
    }
}
