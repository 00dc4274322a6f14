// The words of a line: what stands between its spaces.
ghost use Rattle.std.specs.Prelude.{◌≡◌};
ghost use Rattle.lines.specs.Words.{spaces_in, word_at};

const SPACE: u8 = b' ';

// How many spaces a line has: one less than it has words.
pub fn spaces(line: &[u8]) -> usize
    ensures { result ≡ spaces_in line.now }
{
    line.iter().filter(|b| **b == SPACE).count()
}

// The word of an index, counted from 0; empty behind the last.
pub fn word(line: &[u8], index: usize) -> &[u8]
    ensures { result.now ≡ word_at line.now index }
{
    line.split(|b| *b == SPACE).nth(index).unwrap_or(&[])
}
