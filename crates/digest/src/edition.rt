// The list of MAC kinds (002 appendix A, table 6) in its two editions: the older with SHA_XOR_40, that of April 2001 without.
ghost use Rattle.std.specs.Prelude.{◌≡◌};
ghost use Rattle.digest.specs.Edition.{entry_of, named_in, named, both};
ghost use Rattle.digest.specs.Named.{bytes_of};

use crate::named::{Name, Named, Sizes, Unnamed};

// An entry: what the list says of the kind, and which editions have it.
#[derive(Clone, Copy)]
struct Entry {
    named: Named,
    older: bool,
    later: bool,
}

// What edition 1, the older, or 2, that of April 2001, says of a number.
pub fn mac_named(edition: u8, number: u8) -> Result<Named, Unnamed>
    ensures exact { result ≡ named_in edition number }
{
    match edition {
        1 => named(row_of(number).filter(|e| e.older)),
        2 => named(row_of(number).filter(|e| e.later)),
        _ => Err(Unnamed::UnknownEdition),
    }
}

// What is said of the entry that an edition lists.
fn named(listed: Option<Entry>) -> Result<Named, Unnamed>
    ensures { result ≡ named listed }
{
    listed.map(|e| e.named).ok_or(Unnamed::Unlisted)
}

// The one table, by the assigned number.
fn row_of(n: u8) -> Option<Entry>
    ensures { result ≡ entry_of n }
{
    match n {
        0 => Some(both(Name::Sha0, 0, 0)),
        1 => Some(both(Name::Sha40, 20, 5)),
        2 => Some(both(Name::Sha80, 20, 10)),
        3 => Some(both(Name::Sha, 20, 20)),
        4 => Some(Entry {
            named: Named::new(Name::ShaXor40, None),
            older: true,
            later: false,
        }),
        5 => Some(both(Name::Md540, 16, 5)),
        6 => Some(both(Name::Md580, 16, 10)),
        7 => Some(both(Name::Md5, 16, 16)),
        _ => None,
    }
}

// An entry that both editions list, with its key size and its code size.
fn both(name: Name, key: usize, code: usize) -> Entry
    ensures { result ≡ both (bytes_of name) key code }
{
    Entry {
        named: Named::new(name, Some(Sizes { key, code })),
        older: true,
        later: true,
    }
}
