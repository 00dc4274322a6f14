// The judgement of one record, in the state that the records before it left (02, P7: "checked from the front").
ghost use Rattle.std.specs.Prelude.{ℕ, ◌+◌, ◌<◌, ◌≤◌, ◌≡◌, length};
ghost use Rattle.unit.specs.Judge.{judged_record, ruled_by, stepped_by, step_by, agrees};

use crate::agree::{Judged, agree, judge_as};
use crate::clear::{change, hear_alert, request};
use crate::protected::unprotect;
use crate::state::{Kind, Rule, State, kind_of, rule_of};
use crate::step::{Step, refuse};
use crate::unit::Unit;
use connection::refusal::Refusal;
use connection::sent::SentRecords;
use record::protection::Protection;
use record::reader::Record;

// A record of the datagram d: 7, then place and state, then what the table says.
pub(crate) fn judge(u: Unit, d: &[u8], r: Record) -> Judged
    requires { (0 < r.size) × (r.start + r.head + r.size ≤ length d.now) }
    ensures { result ≡ judged_record u d.now r }
{
    let at = r.start + r.head;
    let fragment = &d[at..at + r.size];
    let content = r.content;
    let state = u.state;
    let is = kind_of(content, r.protected, fragment[0]);
    ruled(
        u,
        rule_of(state, is),
        is,
        r.byte,
        r.number,
        r.start,
        at,
        fragment,
    )
}

// What the table's rule does with the fragment of a record that begins at `start`.
fn ruled(
    u: Unit,
    rule: Rule,
    is: Kind,
    byte: u8,
    number: u16,
    start: usize,
    at: usize,
    fragment: &[u8],
) -> Judged
    ensures { result ≡ ruled_by u rule is byte number start at fragment.now }
{
    if agrees(rule, start) {
        return agree(u, fragment);
    }
    let sent = u.sent;
    let protection = u.protection;
    let expected = u.expected;
    let state = u.state;
    stepped(
        u,
        step_by(
            sent, protection, expected, state, rule, is, byte, number, at, fragment,
        ),
    )
}

// Whether the record is a ServerHello in its place: it may stand only first in its datagram.
fn agrees(rule: Rule, start: usize) -> bool
    ensures { result ≡ agrees rule start }
{
    match rule {
        Rule::Agree => start == 0,
        Rule::Ended => false,
        Rule::NotAllowed => false,
        Rule::Request => false,
        Rule::Change => false,
        Rule::Hear => false,
        Rule::Unprotect => false,
    }
}

// The step of any other record. (A match and no closures: each row is a call with arguments of its own.)
fn step_by(
    sent: SentRecords,
    protection: Protection,
    expected: [u8; 12],
    state: State,
    rule: Rule,
    is: Kind,
    byte: u8,
    number: u16,
    at: usize,
    fragment: &[u8],
) -> Step
    ensures { result ≡ step_by sent protection expected state rule is byte number at fragment.now }
{
    let window = protection.window;
    match rule {
        Rule::Ended => refuse(window, Refusal::Ended),
        Rule::NotAllowed => refuse(window, Refusal::NotAllowed),
        Rule::Agree => refuse(window, Refusal::NotAllowed),
        Rule::Request => request(state, window, fragment),
        Rule::Change => change(window, fragment),
        Rule::Hear => hear_alert(sent, window, fragment),
        Rule::Unprotect => unprotect(protection, expected, state, is, byte, number, at, fragment),
    }
}

// A step's answer, and the unit that it leaves.
fn stepped(u: Unit, step: Step) -> Judged
    ensures { result ≡ stepped_by u step }
{
    let answer = step.answer;
    judge_as(answer, u.left_by(step))
}
