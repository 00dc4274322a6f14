// The answers of a receive counted, as ashore (01): handed out, forged, too old and repeated.
ghost use Rattle.std.specs.Prelude.{ℕ, ◌≡◌};
ghost use Rattle.unit.specs.Tally.{counted_of};

use crate::answer::as_ashore;
use crate::receive::Received;
use connection::tally::Tally;

// The tally after a receive.
pub fn counted(tally: Tally, received: Received) -> Tally
    ensures { result ≡ counted_of tally received.answers }
{
    let answers = received.answers;
    let mut t = tally;
    for slot in &answers {
        t = t.with_answer(as_ashore(slot.answer));
    }
    t
}
