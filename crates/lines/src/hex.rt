// Byte strings in lowercase hex, `-` for the empty one.
ghost use Rattle.std.specs.Prelude.{◌+◌, ◌<◌, ◌≤◌, ◌≡◌, ◌↔◌, ◌++◌, false, length, take, IfOk, IsOk, IsUtf8, OnErr, OnOk, Some};
ghost use Rattle.std.specs.Fmt.{digit_glyph};
ghost use Rattle.std.specs.List.{list_all};
ghost use Rattle.arrayvec.specs.ArrayVec.{array_vec_len};
ghost use Rattle.lines.specs.Hex.{is_hex_digit, hex_digit, is_bytes, bytes_of};
ghost use Rattle.lines.specs.Shown.{hex_of, string_of};

use arrayvec::{ArrayVec, CapacityError};
use std::{fmt, str};

// The most bytes that a byte string of a line spells.
const BYTES: usize = 4096;

// How many bytes are shown at a time.
const PIECE: usize = 64;

// What a byte string spells.
pub type Bytes = ArrayVec<u8, BYTES>;

// Whether a word is a byte string.
pub fn is_bytes(word: &[u8]) -> bool
    ensures { result ≡ is_bytes word.now }
{
    match word {
        [] => false,
        [b] => *b == b'-',
        _ => word.len() % 2 == 0 && all_digits(word),
    }
}

// The bytes that a byte string spells, as many as there is room for.
pub fn bytes(word: &[u8]) -> Bytes
    ensures { result.items ≡ take BYTES (bytes_of word.now) }
{
    let mut bytes = ArrayVec::new();
    for i in 0..BYTES.min(word.len() / 2) {
        bytes.push(digit(word[2 * i]) * 16 + digit(word[2 * i + 1]));
    }
    bytes
}

// Appends the bytes that a byte string spells, where all of them have room, and answers how many they are.
pub fn push_bytes<const N: usize>(
    word: &[u8],
    to: &mut ArrayVec<u8, N>,
) -> Result<usize, CapacityError>
    ensures variant { IsOk result ↔ (array_vec_len to.old + length (bytes_of word.now) ≤ N) }
    ensures count { IfOk result (λ n. n ≡ length (bytes_of word.now)) }
    ensures ok { OnOk result (to.new.items ≡ to.old.items ++ bytes_of word.now) }
    ensures err { OnErr result (to.new ≡ to.old) }
{
    let count = word.len() / 2;
    if to.remaining_capacity() < count {
        return Err(CapacityError::new(()));
    }
    for i in 0..count {
        to.push(digit(word[2 * i]) * 16 + digit(word[2 * i + 1]));
    }
    Ok(count)
}

fn all_digits(word: &[u8]) -> bool
    ensures { result ≡ list_all is_hex_digit word.now }
{
    word.iter().all(|b| is_digit(*b))
}

fn is_digit(b: u8) -> bool
    ensures { result ≡ is_hex_digit b }
{
    matches!(b, b'0'..=b'9' | b'a'..=b'f')
}

// What a digit stands for; 0 for any other byte.
fn digit(b: u8) -> u8
    ensures value { result ≡ hex_digit b }
    ensures upper_bound { result < 16 }
{
    if b'0' <= b && b <= b'9' {
        b - b'0'
    } else if b'a' <= b && b <= b'f' {
        b - b'a' + 10
    } else {
        0
    }
}

// Bytes as two hex digits each.
#[derive(Clone, Copy)]
pub struct Hex<'a>(pub &'a [u8]);

impl fmt::Display for Hex<'_> {
    ghost output = { λ h. Some (hex_of h.0.now) };

    fn fmt<W: fmt::Write>(&self, f: &mut fmt::Formatter<W>) -> fmt::Result {
        for piece in self.0.chunks(PIECE) {
            let digits = digits(piece);
            let Ok(text) = str::from_utf8(digits.as_slice()) else {
                unreachable!();
            };
            f.write_str(text)?;
        }
        Ok(())
    }
}

// The digits of a piece, two to each byte.
fn digits(piece: &[u8]) -> ArrayVec<u8, 128>
    requires { length piece.now ≤ PIECE }
    ensures items { result.items ≡ hex_of piece.now }
    ensures text { IsUtf8 result.items }
{
    let mut digits = ArrayVec::new();
    for b in piece {
        digits.push(glyph(*b / 16));
        digits.push(glyph(*b % 16));
    }
    digits
}

// What a digit looks like.
fn glyph(digit: u8) -> u8
    requires { digit < 16 }
    ensures { result ≡ digit_glyph false digit }
{
    if digit < 10 {
        b'0' + digit
    } else {
        b'a' + (digit - 10)
    }
}

// A byte string: bytes in hex, `-` for none.
#[derive(Clone, Copy)]
pub struct ByteString<'a>(pub &'a [u8]);

impl fmt::Display for ByteString<'_> {
    ghost output = { λ s. Some (string_of s.0.now) };

    fn fmt<W: fmt::Write>(&self, f: &mut fmt::Formatter<W>) -> fmt::Result {
        match self.0 {
            [] => write!(f, "-"),
            bytes => write!(f, "{}", Hex(bytes)),
        }
    }
}
