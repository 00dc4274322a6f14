// Receive a datagram (02, P7): its framing is judged as a whole, then there is one answer for each record.
ghost use Rattle.std.specs.Prelude.{ℕ, ◌+◌, ◌≤◌, ◌<◌, ◌≡◌, length, take, Ok};
ghost use Rattle.digest.specs.Bytes.{laid_over};
ghost use Rattle.record.specs.Datagram.{walk_of};
ghost use Rattle.unit.specs.Receive.{received_of, output_of, whole_of, run_of, flight_in};

use crate::answer::{Answer, Slot, opens_by};
use crate::judge::judge;
use crate::unit::Unit;
use connection::receive::Untaken;
use connection::refusal::Refusal;
use record::datagram::{Misframed, Walk, walked};

#[derive(Clone, Copy)]
pub struct Received {
    pub taken: Result<usize, Untaken>,
    // an answer for each record, and Nothing behind them
    pub answers: [Slot; 8],
    // how many bytes stand at the front of the output
    pub written: usize,
    pub unit: Unit,
}

// Takes a datagram, and room of at least 128 bytes for our flight. Refusals of the whole: 6, 1 to 5.
pub fn receive(u: Unit, datagram: &[u8], out: &mut [u8]) -> Received
    ensures exact { result ≡ received_of u datagram.now (length out.old) }
    ensures bytes { out.new ≡ output_of u datagram.now out.old }
{
    if out.len() < 128 {
        return whole(u, Err(Untaken::Refused(Refusal::Room)));
    }
    match walked(datagram) {
        Err(Misframed { fault, at }) => whole(
            u,
            Err(Untaken::Misframed(Refusal::Framing(fault), at)),
        ),
        Ok(walk) => each(u, datagram, walk, out),
    }
}

// The datagram refused as a whole: nothing changes.
fn whole(u: Unit, taken: Result<usize, Untaken>) -> Received
    ensures { result ≡ whole_of u taken }
{
    let nothing = Slot {
        answer: Answer::Nothing,
    };
    Received {
        taken,
        answers: [nothing; 8],
        written: 0,
        unit: u,
    }
}

// The records one after the other, each in the state that those before it left; then the flight, where one of them opened.
fn each(u: Unit, d: &[u8], walk: Walk, out: &mut [u8]) -> Received
    requires { (walk_of d.now ≡ Ok walk) × (128 ≤ length out.old) }
    ensures value { result ≡ run_of u d.now (take walk.count walk.records) }
    ensures out_after { out.new ≡ laid_over out.old 0 (flight_in u d.now (take walk.count walk.records)) }
{
    let records = walk.records;
    let count = walk.count;
    let nothing = Slot {
        answer: Answer::Nothing,
    };
    let mut answers = [nothing; 8];
    let mut left = u;
    let mut opens: usize = 0;
    for i in 0..count {
        let next = judge(left, d, records[i]);
        let answer = next.answer;
        answers[i] = Slot { answer };
        opens = opens_by(opens, answer);
        left = next.unit;
    }
    let flight = left.flight;
    let written = put_flight(flight, opens, out);
    Received {
        taken: Ok(count),
        answers,
        written,
        unit: left,
    }
}

// Writes so many bytes of the flight, and answers how many that is.
fn put_flight(flight: [u8; 44], size: usize, out: &mut [u8]) -> usize
    requires { 128 ≤ length out.old }
    ensures value { result ≡ length (take size flight) }
    ensures out_after { out.new ≡ laid_over out.old 0 (take size flight) }
{
    if 44 < size {
        digest::put(out, 0, &flight);
        return 44;
    }
    digest::put(out, 0, &flight[..size]);
    size
}
