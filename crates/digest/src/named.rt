// What a list of MAC kinds says of one kind: its name and its sizes (002 appendix A, table 6).
ghost use Rattle.std.specs.Prelude.{◌≡◌, ◌≤◌, length};
ghost use Rattle.digest.specs.Named.{Told, bytes_of, name_of, name_back};

use std::marker::Model;

// The key size and the code size.
#[derive(Clone, Copy, PartialEq, Eq, Debug)]
pub struct Sizes {
    pub key: usize,
    pub code: usize,
}

// Why there is no name: the edition does not list the number, or there is no such edition (16).
#[derive(Clone, Copy, PartialEq, Eq, Debug)]
pub enum Unnamed {
    Unlisted,
    UnknownEdition,
}

// The names of the table.
#[derive(Clone, Copy)]
pub(crate) enum Name {
    Sha0,
    Sha40,
    Sha80,
    Sha,
    ShaXor40,
    Md540,
    Md580,
    Md5,
}

// The name, and the sizes where the list shows them.
#[derive(Clone, Copy)]
pub struct Named {
    name: Name,
    sizes: Option<Sizes>,
}

impl Model for Named {
    ghost Value = { Told };

    ghost view = { λ n. record { name = bytes_of n.name; sizes = n.sizes } };

    // No two names have the same bytes.
    ghost inverse = { λ t. record { name = name_of t.name; sizes = t.sizes } };

    ghost inverse_ok = { λ n h i. record { name = name_back n.name i; sizes = n.sizes } };
}

impl Name {
    // Its bytes. No name of the table is longer.
    fn bytes(self) -> &'static [u8]
        ensures exact { result.now ≡ bytes_of self }
        ensures fits { length result.now ≤ 10 }
    {
        match self {
            Name::Sha0 => b"SHA_0",
            Name::Sha40 => b"SHA_40",
            Name::Sha80 => b"SHA_80",
            Name::Sha => b"SHA",
            Name::ShaXor40 => b"SHA_XOR_40",
            Name::Md540 => b"MD5_40",
            Name::Md580 => b"MD5_80",
            Name::Md5 => b"MD5",
        }
    }
}

impl Named {
    // A kind of this name, with the sizes that the list shows.
    pub(crate) fn new(name: Name, sizes: Option<Sizes>) -> Named
        ensures { result ≡ record { name = bytes_of name; sizes = sizes } }
    {
        Named { name, sizes }
    }

    // The name, of ten bytes at most.
    pub fn name(&self) -> &'static [u8]
        ensures exact { result.now ≡ self.now.name }
        ensures fits { length result.now ≤ 10 }
    {
        self.name.bytes()
    }

    // The sizes, where the list shows them.
    pub fn sizes(&self) -> Option<Sizes>
        ensures exact { result ≡ self.now.sizes }
    {
        self.sizes
    }
}
