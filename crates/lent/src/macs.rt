// The list of MAC kinds for a caller (02, P11): a name into the lent bytes, its sizes as one count.
ghost use Rattle.std.specs.Prelude.{◌≡◌, length};
ghost use Rattle.lent.specs.Macs.{sizes_count, named_result, named_out};

use crate::result::{not_taken, result_of};
use connection::refusal::{Refusal, number};
use digest::{Named, Sizes, Unnamed, put};

// The room that any name fits.
const ROOM: usize = 10;

// What an edition says, left in the lent bytes.
pub(crate) fn leave_named(said: Result<Named, Unnamed>, out: &mut [u8]) -> u64
    ensures value { result ≡ named_result said (length out.old) }
    ensures out_after { out.new ≡ named_out said out.old }
{
    match said {
        Err(Unnamed::UnknownEdition) => not_taken(),
        _ if out.len() < ROOM => result_of(number(Refusal::Room), 0, 0),
        Err(Unnamed::Unlisted) => result_of(0, 0, 0),
        Ok(named) => {
            let name = named.name();
            put(out, 0, name);
            result_of(0, name.len(), sizes_count(named.sizes()))
        }
    }
}

// The sizes as one count; 0 where they are not shown.
fn sizes_count(sizes: Option<Sizes>) -> usize
    ensures { result ≡ sizes_count sizes }
{
    match sizes {
        Some(Sizes { key, code }) => 32768 + key % 128 * 256 + code % 256,
        None => 0,
    }
}
