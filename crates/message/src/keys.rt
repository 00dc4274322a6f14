// Lists of key exchange identifiers (002 10.5.1.2): client_key_ids and trusted_key_ids.
ghost use Rattle.std.specs.Prelude.{◌≡◌, ◌≤◌, ◌<◌, length, IfSome};
ghost use Rattle.message.specs.Field.{told_end};
ghost use Rattle.message.specs.Keys.{specifier_end, identifier_end, entry_end, key_list, keys_end};

use crate::{field, set};

// The end of a parameter specifier: the index, and after index 255 the explicit set, which must be sound.
pub(crate) fn specifier_end(s: &[u8], at: usize, suite: u8) -> Option<usize>
    ensures value { result ≡ told_end (specifier_end s.now at suite) }
    ensures within { IfSome result (λ end. (0 < end) × (end ≤ length s.now)) }
{
    let index = *s.get(at)?;
    if index != 255 {
        return Some(at + 1);
    }
    let end = field::long_end(s, at + 1)?;
    set::sound(suite, field::part(s, at + 3, end)).then_some(end)
}

// The end of an identifier, one of five types: null, text (a character set, then the name), binary, key hash, X.509 name.
pub(crate) fn identifier_end(s: &[u8], at: usize) -> Option<usize>
    ensures value { result ≡ told_end (identifier_end s.now at) }
    ensures within { IfSome result (λ end. (0 < end) × (end ≤ length s.now)) }
{
    let kind = *s.get(at)?;
    match kind {
        0 => Some(at + 1),
        1 => field::short_end(s, at + 3, 1, 255),
        2 => field::short_end(s, at + 1, 1, 255),
        254 => field::field_end(s, at + 1, 20),
        255 => field::short_end(s, at + 1, 1, 255),
        _ => None,
    }
}

// The end of the entry that begins at a place: suite, parameter specifier, identifier.
pub(crate) fn entry_end(s: &[u8], at: usize) -> Option<usize>
    ensures value { result ≡ told_end (entry_end s.now at) }
    ensures within { IfSome result (λ end. (0 < end) × (end ≤ length s.now)) }
{
    let suite = *s.get(at)?;
    let identifier = specifier_end(s, at + 1, suite)?;
    identifier_end(s, identifier)
}

// Whether the bytes are a list of entries, the last of which ends where the bytes end.
pub fn key_list(s: &[u8]) -> bool
    ensures { result ≡ key_list s.now }
{
    // each entry tells where the next one begins
    let mut at: usize = 0;
    while at < s.len() {
        let Some(end) = entry_end(s, at) else {
            return false;
        };
        at = end;
    }
    true
}

// The end of a key list in a message: its length, then that many bytes of entries.
pub(crate) fn keys_end(m: &[u8], at: usize) -> Option<usize>
    ensures value { result ≡ told_end (keys_end m.now at) }
    ensures within { IfSome result (λ end. (0 < end) × (end ≤ length m.now)) }
{
    let end = field::long_end(m, at)?;
    key_list(field::part(m, at + 2, end)).then_some(end)
}
