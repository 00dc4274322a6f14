// The parts that a handshake saved ashore and a saved unit have alike, each as an array, wherever it stands: the session, what was
// agreed, and how the protection stands.
ghost use Rattle.std.specs.Prelude.{◌≡◌, ℕ, [], ◌∷◌, ◌++◌, ◌<◌, length, get_or};
ghost use Rattle.lent.specs.Fields.{joined};
ghost use Rattle.lent.specs.Saved.{agreed_fields, window_fields, sending_fields, sum_fields, mac_numbered, keys_of, window_of, protection_of};

use crate::bytes::{bytes_within, eight, eight_within, four, four_within, two, two_within};
use digest::{Mac, put};
use record::keys::Keys;
use record::protection::Protection;
use record::window::Window;

// The MAC kind of a number.
#[tactic(auto, unfolding(crate::specs::Saved::mac_numbered))]
pub fn mac_numbered(n: u8) -> Mac
    ensures exact { result ≡ mac_numbered n }
{
    match n {
        2 => Mac::Sha80,
        _ => Mac::Sha,
    }
}

// The protection: its keys, and how it stands.
pub fn protection_in(keys: [u8; 54], standing: [u8; 19]) -> Protection
    ensures exact { result ≡ protection_of keys standing }
{
    Protection {
        keys: keys_in(keys),
        window: window_in(bytes_within(&standing, 0)),
        protected: four_within(&standing, 11),
        clear: four_within(&standing, 15),
    }
}

fn keys_in(part: [u8; 54]) -> Keys
    ensures { result ≡ keys_of part }
{
    Keys {
        secret: bytes_within(&part, 0),
        server: bytes_within(&part, 20),
        client: bytes_within(&part, 36),
        mac: mac_numbered(part[52]),
        refresh: part[53],
    }
}

pub fn window_in(part: [u8; 11]) -> Window
    ensures exact { result ≡ window_of part }
{
    Window {
        width: part[0],
        highest: two_within(&part, 1),
        marks: eight_within(&part, 3),
    }
}

// The number of a state, and the session.
pub fn session_bytes(number: u8, id: [u8; 8], secret: [u8; 20]) -> [u8; 29]
    ensures exact { result ≡ joined ((number ∷ []) ∷ id ∷ secret ∷ []) }
    ensures part_len { length (joined ((number ∷ []) ∷ id ∷ secret ∷ [])) ≡ 29 }
    ensures sized { (length id ≡ 8) × (length secret ≡ 20) }
{
    let mut part = [0; 29];
    put(&mut part, 0, &[number]);
    put(&mut part, 1, &id);
    put(&mut part, 9, &secret);
    part
}

// What was agreed: the randoms, the MAC kind, the key refresh, and what the other end's Finished must have.
pub fn agreed_bytes(keys: Keys, expected: [u8; 12]) -> [u8; 46]
    ensures exact { result ≡ joined (agreed_fields keys expected) }
    ensures part_len { length (joined (agreed_fields keys expected)) ≡ 46 }
    ensures sized { (length keys.server ≡ 16) × ((length keys.client ≡ 16) × (length expected ≡ 12)) }
{
    let mut part = [0; 46];
    put(&mut part, 0, &keys.server);
    put(&mut part, 16, &keys.client);
    put(&mut part, 32, &[keys.mac.number()]);
    put(&mut part, 33, &[keys.refresh]);
    put(&mut part, 34, &expected);
    part
}

// How the protection stands: the window, and the numbers that are next.
pub fn standing_bytes(protection: Protection) -> [u8; 19]
    ensures exact { result ≡ joined (window_fields protection.window ++ sending_fields protection) }
    ensures part_len { length (joined (window_fields protection.window ++ sending_fields protection)) ≡ 19 }
    ensures ranged { ((protection.window.highest < 65536) × (protection.window.marks < 18446744073709551616))
        × ((protection.protected < 4294967296) × (protection.clear < 4294967296)) }
{
    let window = protection.window;
    let mut part = [0; 19];
    put(&mut part, 0, &[window.width]);
    put(&mut part, 1, &two(window.highest));
    put(&mut part, 3, &eight(window.marks));
    put(&mut part, 11, &four(protection.protected));
    put(&mut part, 15, &four(protection.clear));
    part
}

// Eight numbers, each in four bytes.
pub fn words(numbers: [u32; 8]) -> [u8; 32]
    ensures exact { result ≡ joined (sum_fields numbers) }
    ensures part_len { length (joined (sum_fields numbers)) ≡ 32 }
    ensures ranged { (length numbers ≡ 8) × ((i : ℕ) → get_or numbers i 0 < 4294967296) }
{
    let mut part = [0; 32];
    for (i, number) in numbers.iter().enumerate() {
        put(&mut part, 4 * i, &four(*number));
    }
    part
}
