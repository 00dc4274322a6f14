// What a call leaves in the lent bytes: the connection, the tally and the answers where it is done, nothing where it is
// refused.
ghost use Rattle.std.specs.Prelude.{◌≡◌, length};
ghost use Rattle.connection.specs.Tally.{counted_of};
ghost use Rattle.lent.specs.Saved.{saved_of, loaded, state_size, Is};
ghost use Rattle.lent.specs.Report.{report_of};
ghost use Rattle.lent.specs.Counts.{tally_bytes, tally_in};
ghost use Rattle.lent.specs.Calls.{result_of, refusal_in, left_in, left_loaded, sent_result, sent_state, sent_loads};
ghost use Rattle.lent.specs.Calls.{taken_result, where_taken};

use crate::counts::{put_tally, tally_in};
use crate::report::put_answers;
use crate::result::result_of;
use crate::save::put_connection;
use connection::calls::Called;
use connection::receive::{Received, Untaken};
use connection::refusal::number;
use connection::send::Sent;

pub(crate) fn leave_called(called: Called, state: &mut [u8]) -> u64
    requires { length state.old ≡ state_size }
    ensures value { result ≡ result_of (refusal_in called.outcome) 0 0 }
    ensures state_after { state.new ≡ left_in state.old called.connection called.outcome }
    ensures state_after_2 { loaded state.new ≡ left_loaded state.old called.connection called.outcome }
{
    match called.outcome {
        Err(refusal) => result_of(number(refusal), 0, 0),
        Ok(()) => {
            put_connection(state, called.connection);
            result_of(0, 0, 0)
        }
    }
}

pub(crate) fn leave_sent(sent: Sent, state: &mut [u8]) -> u64
    requires { length state.old ≡ state_size }
    ensures value { result ≡ sent_result sent }
    ensures state_after { state.new ≡ sent_state state.old sent }
    ensures state_after_2 { loaded state.new ≡ sent_loads state.old sent }
{
    match sent.outcome {
        Err(refusal) => result_of(number(refusal), sent.written, 0),
        Ok(()) => {
            put_connection(state, sent.connection);
            result_of(0, sent.written, 0)
        }
    }
}

pub(crate) fn leave_received(
    received: Received,
    state: &mut [u8],
    tally: &mut [u8],
    answers: &mut [u8],
) -> u64
    requires { (length state.old ≡ state_size) × ((length tally.old ≡ 16) × (length answers.old ≡ 192)) }
    ensures value { result ≡ taken_result received.written received.taken }
    ensures state_after { state.new ≡ where_taken received.taken (saved_of received.connection)
        state.old }
    ensures tally_after { tally.new ≡ where_taken received.taken
        (tally_bytes (counted_of (tally_in tally.old) received.answers)) tally.old }
    ensures answers_after { answers.new ≡ where_taken received.taken (report_of received.answers)
        answers.old }
    ensures state_after_2 { loaded state.new ≡ where_taken received.taken (Is received.connection)
        (loaded state.old) }
{
    match received.taken {
        Err(untaken) => match untaken {
            Untaken::Refused(refusal) => result_of(number(refusal), 0, 0),
            Untaken::Misframed(refusal, at) => result_of(number(refusal), 0, at),
        },
        Ok(count) => {
            put_connection(state, received.connection);
            let before = tally_in(tally);
            let given = received.answers;
            put_tally(tally, before.with_answers(given));
            put_answers(answers, given);
            result_of(0, received.written, count)
        }
    }
}
