// Which call of short messages a line makes: `message BYTES RANDOM ROOM`, `drop REF`.
ghost use Rattle.std.specs.Prelude.{◌≡◌};
ghost use Rattle.callwords.specs.Short.{drop_words, short_of};

use crate::call::receive_words;
use lines::said::{named, number_at};
use lines::words::spaces;

#[derive(Clone, Copy, PartialEq, Eq, Debug)]
pub enum Short {
    Message,
    Drop,
}

// The call that a line makes.
#[tactic(auto, unfolding(crate::specs::Short::short_of))]
pub fn short_of(line: &[u8]) -> Option<Short>
    ensures { result ≡ short_of line.now }
{
    if named(line, 0, b"message") {
        return receive_words(line).then_some(Short::Message);
    }
    if named(line, 0, b"drop") {
        return drop_words(line).then_some(Short::Drop);
    }
    None
}

// drop REF
fn drop_words(line: &[u8]) -> bool
    ensures { result ≡ drop_words line.now }
{
    spaces(line) == 1 && number_at(line, 1, 255)
}
