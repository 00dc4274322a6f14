// The judgement of one record by one handshake, in the state that the records before it left (01, "Handshake").
ghost use Rattle.std.specs.Prelude.{ℕ, ◌+◌, ◌<◌, ◌≤◌, ◌≡◌, length};
ghost use Rattle.connection.specs.Judge.{judged_record, ruled_by};
ghost use Rattle.connection.specs.Later.{judged_else, ruled_else};
ghost use Rattle.connection.specs.Step.{stepped_by};

use crate::answer::{Judged, refuse};
use crate::clear::{change, greet, greet_again, hear_alert, resend};
use crate::handshake::Handshake;
use crate::protected::open_record;
use crate::refusal::Refusal;
use crate::sent::SentRecords;
use crate::state::{Kind, Rule, kind_of, rule_of};
use crate::step;
use crate::step::{Step, judge_by};
use record::reader::Record;

// A record of the datagram d: 7, then place and state, then what the table says. `sent` are the records that we sent.
pub(crate) fn judge(
    h: Handshake,
    sent: SentRecords,
    random: [u8; 16],
    d: &[u8],
    r: Record,
) -> Judged
    requires { (length random ≡ 16) × ((0 < r.size) × (r.start + r.head + r.size ≤ length d.now)) }
    ensures { result ≡ judged_record h sent random d.now r }
{
    let at = r.start + r.head;
    let fragment = &d[at..at + r.size];
    let content = r.content;
    let state = h.state;
    let is = kind_of(content, r.protected, fragment[0]);
    ruled(h, sent, random, rule_of(state, is), is, r, fragment)
}

// What the table's rule does with the fragment of a record. A ClientHello may stand only first in its datagram. (A match and no
// closures: each row is a call with arguments of its own.)
fn ruled(
    h: Handshake,
    sent: SentRecords,
    random: [u8; 16],
    rule: Rule,
    is: Kind,
    r: Record,
    fragment: &[u8],
) -> Judged
    requires { (length random ≡ 16) × (r.start + r.head ≤ 18446744073709551615) }
    ensures { result ≡ ruled_by h sent random rule is r fragment.now }
{
    match rule {
        Rule::Ended => refuse(h, Refusal::Ended),
        Rule::NotAllowed => refuse(h, Refusal::NotAllowed),
        Rule::Resend => {
            if r.start != 0 {
                return refuse(h, Refusal::NotAllowed);
            }
            resend(h, fragment)
        }
        Rule::Greet => {
            if r.start != 0 {
                return refuse(h, Refusal::NotAllowed);
            }
            greet(h, random, fragment)
        }
        Rule::GreetAgain => {
            if r.start != 0 {
                return refuse(h, Refusal::NotAllowed);
            }
            greet_again(h, random, fragment)
        }
        Rule::Change => judge_by(h, change(h, fragment)),
        Rule::Hear => judge_by(h, hear_alert(h, sent, fragment)),
        Rule::OpenRecord => judge_by(
            h,
            open_record(h, is, r.byte, r.number, r.start + r.head, fragment),
        ),
    }
}

// The step of a record of the datagram d that is no ClientHello first in it.
pub(crate) fn step_by(h: Handshake, sent: SentRecords, d: &[u8], r: Record) -> Step
    requires { (0 < r.size) × (r.start + r.head + r.size ≤ length d.now) }
    ensures { stepped_by h result ≡ judged_else h sent d.now r }
{
    let at = r.start + r.head;
    let fragment = &d[at..at + r.size];
    let content = r.content;
    let state = h.state;
    let is = kind_of(content, r.protected, fragment[0]);
    ruled_else(h, sent, rule_of(state, is), is, r, fragment)
}

// What the table's rule does with the fragment of such a record. (A match, as above.)
fn ruled_else(
    h: Handshake,
    sent: SentRecords,
    rule: Rule,
    is: Kind,
    r: Record,
    fragment: &[u8],
) -> Step
    requires { r.start + r.head ≤ 18446744073709551615 }
    ensures { stepped_by h result ≡ ruled_else h sent rule is r fragment.now }
{
    let protection = h.protection;
    let window = protection.window;
    match rule {
        Rule::Ended => step::refuse(window, Refusal::Ended),
        Rule::NotAllowed => step::refuse(window, Refusal::NotAllowed),
        Rule::Resend => step::refuse(window, Refusal::NotAllowed),
        Rule::Greet => step::refuse(window, Refusal::NotAllowed),
        Rule::GreetAgain => step::refuse(window, Refusal::NotAllowed),
        Rule::Change => change(h, fragment),
        Rule::Hear => hear_alert(h, sent, fragment),
        Rule::OpenRecord => open_record(h, is, r.byte, r.number, r.start + r.head, fragment),
    }
}
