// Why a record is refused, asked of a connection that lives in bytes which the caller lends, as `lent` has its calls: the reason
// with its facts goes into lent bytes of a fixed layout (specs/Facts.antt). It is not exported yet.
#![tactic(auto)]

ghost use Rattle.std.specs.Prelude.{◌≡◌, length};
ghost use Rattle.lentwhy.specs.Calls.{why_result, why_facts};

mod facts;

use facts::{SIZE, put_facts};
use lent::{connection_within, is_saved, result_of};

// Why the record at an index of a datagram is refused: its reason with the facts in 96 bytes, and its number as the count.
// Nothing else changes. Refusal: 16, where the bytes are no saved connection or those for the facts are not 96.
pub fn why(
    state: &[u8],
    edition: u32,
    datagram: &[u8],
    random: &[u8],
    index: u32,
    facts: &mut [u8],
) -> u64
    ensures exact { result ≡ why_result state.now edition datagram.now random.now index
        (length facts.old) }
    ensures bytes { facts.new ≡ why_facts state.now edition datagram.now
        random.now index facts.old }
{
    if facts.len() != SIZE {
        return result_of(16, 0, 0);
    }
    if is_saved(state) {
        let c = connection_within(state);
        let w = why::why(edition, c, datagram, random, index as usize);
        let reason = w.reason;
        put_facts(facts, w);
        return result_of(0, SIZE, why::number(reason) as usize);
    }
    result_of(16, 0, 0)
}
