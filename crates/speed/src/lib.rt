// What the benchmark (bench/) times and weighs: the calls of the crate digest, for C to call.
#![tactic(auto)]

ghost use Rattle.std.specs.Prelude.{◌≡◌, List, ◌++◌, length, ℕ};
ghost use Rattle.digest.specs.Bytes.{laid_within};
ghost use Rattle.digest.specs.Sha1.{sha1};
ghost use Rattle.digest.specs.Hmac.{hmac, key_of};
ghost use Rattle.digest.specs.Expansion.{prf};

use digest::{Key, put};

// The digest of s, in the first twenty bytes of `out`. A shorter `out` is left as it is.
#[unsafe(no_mangle)]
pub extern "C" fn speed_sha1(s: &[u8], out: &mut [u8])
    ensures { out.new ≡ laid_within out.old 0 (sha1 s.now) }
{
    let d = digest::sha1(s);
    put(out, 0, &d);
}

// The code of a message under a key that is set up for it.
#[unsafe(no_mangle)]
pub extern "C" fn speed_hmac(key: &[u8], message: &[u8], out: &mut [u8])
    ensures { out.new ≡ laid_within out.old 0 (hmac key.now message.now) }
{
    let c = code(Key::new(key), message);
    put(out, 0, &c);
}

// The same code, made n times (once, if n is 0) under a key that is set up once.
#[unsafe(no_mangle)]
pub extern "C" fn speed_codes(key: &[u8], message: &[u8], n: usize, out: &mut [u8])
    ensures { out.new ≡ laid_within out.old 0 (hmac key.now message.now) }
{
    let k = Key::new(key);
    let mut c = code(k, message);
    for _ in 1..n {
        c = code(k, message);
    }
    put(out, 0, &c);
}

// The pseudo-random function, over all of `out`.
#[unsafe(no_mangle)]
pub extern "C" fn speed_prf(
    secret: &[u8],
    label: &[u8],
    first: &[u8],
    second: &[u8],
    third: &[u8],
    out: &mut [u8],
)
    ensures { out.new ≡ prf secret.now label.now (first.now ++ second.now ++ third.now) (length out.old) }
{
    digest::prf(secret, label, first, second, third, out);
}

// The code of a message that comes in one piece. (Not inlined: so the archive needs no memset.)
#[inline(never)]
fn code(key: Key, message: &[u8]) -> [u8; 20]
    ensures { (k : List ℕ) → key ≡ key_of k → result ≡ hmac k message.now }
{
    key.end(key.begin().update(message))
}
