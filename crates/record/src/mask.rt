// The initial vector of a record (002 11.2): the original one, XORed with the record's number.
ghost use Rattle.std.specs.Prelude.{◌≡◌};
ghost use Rattle.record.specs.Mask.{mask_of};

// The vector masked by the number, in its place, whatever its length: the number's two bytes over
// each two bytes, and over a last one the first of them. Masked again it is what it was.
pub fn mask(iv: &mut [u8], number: u16)
    ensures { iv.new ≡ mask_of iv.old number }
{
    let pair = number.to_be_bytes();
    for (i, byte) in iv.iter_mut().enumerate() {
        *byte ^= pair[i % 2];
    }
}
