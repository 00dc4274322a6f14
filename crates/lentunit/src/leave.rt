// What a call leaves in the lent bytes: the unit, the tally and the answers where it is done, nothing where it is refused.
ghost use Rattle.std.specs.Prelude.{◌≡◌, length};
ghost use Rattle.lent.specs.Calls.{result_of, refusal_in, taken_result, where_taken};
ghost use Rattle.lent.specs.Counts.{tally_bytes, tally_in};
ghost use Rattle.unit.specs.Tally.{counted_of};
ghost use Rattle.lentunit.specs.Saved.{saved_of, loaded, unit_size, Is};
ghost use Rattle.lentunit.specs.Report.{report_of};
ghost use Rattle.lentunit.specs.Calls.{left_in, left_loaded, sent_result, sent_state, sent_loads};

use crate::report::put_answers;
use crate::save::put_unit;
use connection::receive::Untaken;
use connection::refusal::number;
use lent::{lay_tally, result_of, tally_within};
use unit::calls::Called;
use unit::receive::Received;
use unit::send::Sent;
use unit::tally::counted;

pub(crate) fn leave_called(called: Called, state: &mut [u8]) -> u64
    requires { length state.old ≡ unit_size }
    ensures value { result ≡ result_of (refusal_in called.outcome) 0 0 }
    ensures state_after { state.new ≡ left_in state.old called.unit called.outcome }
    ensures state_after_2 { loaded state.new ≡ left_loaded state.old called.unit called.outcome }
{
    match called.outcome {
        Err(refusal) => result_of(number(refusal), 0, 0),
        Ok(()) => {
            put_unit(state, called.unit);
            result_of(0, 0, 0)
        }
    }
}

pub(crate) fn leave_sent(sent: Sent, state: &mut [u8]) -> u64
    requires { length state.old ≡ unit_size }
    ensures value { result ≡ sent_result sent }
    ensures state_after { state.new ≡ sent_state state.old sent }
    ensures state_after_2 { loaded state.new ≡ sent_loads state.old sent }
{
    match sent.outcome {
        Err(refusal) => result_of(number(refusal), sent.written, 0),
        Ok(()) => {
            put_unit(state, sent.unit);
            result_of(0, sent.written, 0)
        }
    }
}

// What a call that writes and changes nothing answers.
pub(crate) fn said(sent: Sent) -> u64
    ensures { result ≡ sent_result sent }
{
    match sent.outcome {
        Err(refusal) => result_of(number(refusal), sent.written, 0),
        Ok(()) => result_of(0, sent.written, 0),
    }
}

pub(crate) fn leave_received(
    received: Received,
    state: &mut [u8],
    tally: &mut [u8],
    answers: &mut [u8],
) -> u64
    requires { (length state.old ≡ unit_size) × ((length tally.old ≡ 16) × (length answers.old ≡ 192)) }
    ensures value { result ≡ taken_result received.written received.taken }
    ensures state_after { state.new ≡ where_taken received.taken (saved_of received.unit) state.old }
    ensures tally_after { tally.new ≡ where_taken received.taken
        (tally_bytes (counted_of (tally_in tally.old) received.answers)) tally.old }
    ensures answers_after { answers.new ≡ where_taken received.taken (report_of received.answers)
        answers.old }
    ensures state_after_2 { loaded state.new ≡ where_taken received.taken (Is received.unit)
        (loaded state.old) }
{
    match received.taken {
        Err(untaken) => match untaken {
            Untaken::Refused(refusal) => result_of(number(refusal), 0, 0),
            Untaken::Misframed(refusal, at) => result_of(number(refusal), 0, at),
        },
        Ok(count) => {
            put_unit(state, received.unit);
            let before = tally_within(tally);
            lay_tally(tally, counted(before, received));
            let given = received.answers;
            put_answers(answers, given);
            result_of(0, received.written, count)
        }
    }
}
