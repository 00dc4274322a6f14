// Bytes laid over others, and words spelled as bytes.
ghost use Rattle.std.specs.Prelude.{◌≡◌, ◌+◌, ◌≤◌, length};
ghost use Rattle.digest.specs.Bytes.{bytes4, laid_over, laid_within};

// s laid over d from place `at` on.
pub(crate) fn lay(d: &mut [u8], at: usize, s: &[u8])
    requires { at + length s.now ≤ length d.old }
    ensures { d.new ≡ laid_over d.old at s.now }
{
    // (byte by byte in the source: copy_from_slice would have the archives for C need memmove)
    for i in 0..s.len() {
        d[at + i] = s[i];
    }
}

// s laid over d from place `at` on, where all of it fits; else nothing is written.
pub fn put(d: &mut [u8], at: usize, s: &[u8])
    ensures exact { d.new ≡ laid_within d.old at s.now }
{
    if d.len() < s.len() {
        return;
    }
    if d.len() - s.len() < at {
        return;
    }
    lay(d, at, s);
}

// The four bytes of x laid over d from place `at` on, the most significant first.
pub(crate) fn put_word(d: &mut [u8], at: usize, x: u32)
    requires { at + 4 ≤ length d.old }
    ensures { d.new ≡ laid_over d.old at (bytes4 x) }
{
    lay(d, at, &x.to_be_bytes());
}
