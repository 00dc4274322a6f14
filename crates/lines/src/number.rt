// Numbers: decimal, without sign or leading zero, of at most nine digits.
ghost use Rattle.std.specs.Prelude.{◌≤◌, ◌≡◌, length};
ghost use Rattle.std.specs.List.{list_all};
ghost use Rattle.lines.specs.Decimal.{is_digit, digit_of, number_of, is_number};

// Whether a word is a number of at most `most`.
pub fn is_number(word: &[u8], most: usize) -> bool
    ensures { result ≡ is_number word.now most }
{
    match word {
        [] => false,
        [b'0'] => true,
        [b'0', ..] => false,
        _ => word.len() <= 9 && all_digits(word) && value(word) <= most,
    }
}

// The number that a word spells, or `most` where it is more.
pub fn number(word: &[u8], most: usize) -> usize
    ensures upper_bound { result ≤ most }
    ensures value { number_of word.now ≤ most → result ≡ number_of word.now }
{
    value(word).min(most)
}

// The room in `out` that a word asks for: all of it where it asks for more.
pub fn room(word: &[u8], out: &[u8]) -> usize
    ensures { result ≤ length out.now }
{
    number(word, out.len())
}

fn all_digits(word: &[u8]) -> bool
    ensures { result ≡ list_all is_digit word.now }
{
    word.iter().all(|b| is_digit(*b))
}

fn is_digit(b: u8) -> bool
    ensures { result ≡ is_digit b }
{
    b.is_ascii_digit()
}

// The number that the first nine digits spell, or fewer if there are no more.
fn value(word: &[u8]) -> usize
    ensures { result ≡ number_of word.now }
{
    let mut n: usize = 0;
    for b in word {
        if 99999999 < n {
            return n;
        }
        n = n * 10 + digit(*b);
    }
    n
}

fn digit(b: u8) -> usize
    ensures value { result ≡ digit_of b }
    ensures upper_bound { result ≤ 9 }
{
    match b {
        b'0'..=b'9' => usize::from(b - b'0'),
        _ => 0,
    }
}
