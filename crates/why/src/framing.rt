// The facts of a framing fault, read from the datagram.
ghost use Rattle.std.specs.Prelude.{◌≡◌, ℕ, ◌-◌, ◌≤◌, length, get_or, drop};
ghost use Rattle.record.specs.Header.{kind_of};
ghost use Rattle.record.specs.Reader.{head_of, size_of};
ghost use Rattle.why.specs.Framing.{fault_reason, fault_at};

use crate::reason::Reason;
use record::header::{Kind, split};
use record::reader::Fault;

// The fault of the record that begins at `at`.
pub(crate) fn fault_reason(d: &[u8], at: usize, fault: Fault) -> Reason
    ensures { result ≡ fault_reason d.now at fault }
{
    if d.len() < at {
        return of_part(d, at, &d[..0], fault);
    }
    of_part(d, at, &d[at..], fault)
}

// The same of the part of the datagram where the record begins.
fn of_part(d: &[u8], at: usize, part: &[u8], fault: Fault) -> Reason
    ensures { result ≡ fault_at d.now at part.now fault }
{
    let byte = byte_at(part, 0);
    let kind = split(byte);
    match fault {
        Fault::Size => Reason::Size { size: d.len() },
        Fault::Header => Reason::Header {
            at,
            left: part.len(),
            needs: head_of(kind),
        },
        Fault::Kind => Reason::TypeByte { at, byte },
        Fault::Fragment => Reason::Fragment {
            at,
            stated: stated(part, kind),
            left: less(part.len(), head_of(kind)),
        },
        Fault::Ninth => Reason::Ninth { at },
    }
}

// How many bytes the header has.
fn head_of(kind: Kind) -> usize
    ensures { result ≡ head_of kind }
{
    if kind.long {
        return 5;
    }
    3
}

// The length that the header gives; without one, the rest.
fn stated(part: &[u8], kind: Kind) -> usize
    ensures { result ≡ size_of part.now kind }
{
    if kind.long {
        let high = byte_at(part, 3) as usize;
        let low = byte_at(part, 4) as usize;
        return high * 256 + low;
    }
    less(part.len(), 3)
}

// The byte at a place, or 0 past the end.
pub(crate) fn byte_at(m: &[u8], at: usize) -> u8
    ensures { result ≡ get_or m.now at 0 }
{
    if at < m.len() {
        return m[at];
    }
    0
}

// One number less another, or 0.
pub(crate) fn less(a: usize, b: usize) -> usize
    ensures { result ≡ a - b }
{
    if a < b {
        return 0;
    }
    a - b
}
