// What the word of an index says.
ghost use Rattle.std.specs.Prelude.{◌≡◌};
ghost use Rattle.lines.specs.Said.{is_named, bytes_at, number_at};

use crate::hex::is_bytes;
use crate::number::is_number;
use crate::words::word;

// Whether the word of an index is this one.
pub fn named(line: &[u8], index: usize, name: &[u8]) -> bool
    ensures { result ≡ is_named line.now index name.now }
{
    word(line, index) == name
}

// Whether the word of an index is a byte string.
pub fn bytes_at(line: &[u8], index: usize) -> bool
    ensures { result ≡ bytes_at line.now index }
{
    is_bytes(word(line, index))
}

// Whether the word of an index is a number of at most `most`.
pub fn number_at(line: &[u8], index: usize, most: usize) -> bool
    ensures { result ≡ number_at line.now index most }
{
    is_number(word(line, index), most)
}
