// Change cipher spec (002 10.1): a single byte of value 1.
ghost use Rattle.std.specs.Prelude.{◌≡◌};
ghost use Rattle.message.specs.Change.{is_change, change_bytes};

// Whether the bytes are a change cipher spec.
#[tactic(auto, unfolding(crate::specs::Change::is_change))]
pub fn is_change(s: &[u8]) -> bool
    ensures { result ≡ is_change s.now }
{
    if s.len() != 1 {
        return false;
    }
    s[0] == 1
}

// The bytes of one.
pub fn change() -> [u8; 1]
    ensures { result ≡ change_bytes }
{
    [1]
}
