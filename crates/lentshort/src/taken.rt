// The datagram that an answer shows, received on lent bytes.
ghost use Rattle.std.specs.Prelude.{◌≡◌, length};
ghost use Rattle.gather.specs.Gatherer.{datagram_of};
ghost use Rattle.lent.specs.Saved.{loaded};
ghost use Rattle.lentshort.specs.Gathered.{unshown_number};
ghost use Rattle.lentshort.specs.Message.{hears, heard_of, heard_loads};

use gather::{Answer, Refusal, datagram};
use lent::{receive, result_of};
use short::shows;

pub(crate) fn take<'a>(
    answer: Result<Answer, Refusal>,
    state: &mut [u8],
    tally: &mut [u8],
    bytes: &'a [u8],
    assembly: &'a [u8],
    random: &[u8],
    out: &mut [u8],
    answers: &mut [u8],
) -> u64
    ensures answers_after { hears result state.new tally.new out.new answers.new
        ≡ heard_of answer state.old tally.old (datagram_of answer bytes.now assembly.now)
        random.now out.old answers.old }
    ensures state_after { loaded state.new ≡ heard_loads answer state.old tally.old
        (datagram_of answer bytes.now assembly.now) random.now (length out.old)
        answers.old }
{
    if shows(answer) {
        return receive(
            state,
            tally,
            datagram(answer, bytes, assembly),
            random,
            out,
            answers,
        );
    }
    result_of(unshown(answer), 0, 0)
}

// The refusal's number of an answer that shows no datagram; 0 where it waits.
pub(crate) fn unshown(answer: Result<Answer, Refusal>) -> u8
    ensures { result ≡ unshown_number answer }
{
    match answer {
        Err(refusal) => u8::from(refusal),
        Ok(_) => 0,
    }
}
