// Published vectors of SHA-1, HMAC and the expansion, each beside what the crate `digest` computes: a line for each,
// its name, the published value and the computed one.
//
// The published values are those of FIPS 180-1 (abc, the 448-bit message, one million a) and RFC 2202. The others
// come from Python's hashlib and hmac, as tools/vectors prints them.
#![tactic(auto)]

mod lengths;
mod show;

use lines::output::Output;
use show::line;
use std::io;
use std::io::Write;

fn main(rt: HostRuntime) -> io::Result<()> {
    let mut out = Output::new(io::writer(&rt));
    papers(&mut out)?;
    lengths::lengths(&mut out)?;
    codes(&mut out)?;
    expansions(&mut out)?;
    out.flush()
}

// FIPS 180-1, appendices A to C, and the empty message.
fn papers<W: Write>(out: &mut W) -> io::Result<()> {
    let abc = digest::sha1(b"abc");
    line(
        "sha1-abc",
        "a9993e364706816aba3e25717850c26c9cd0d89d",
        &abc,
        out,
    )?;
    let long = digest::sha1(b"abcdbcdecdefdefgefghfghighijhijkijkljklmklmnlmnomnopnopq");
    line(
        "sha1-448",
        "84983e441c3bd26ebaae4aa1f95129e5e54670f1",
        &long,
        out,
    )?;
    let million = million_a();
    line(
        "sha1-million-a",
        "34aa973cd4c4daa4f61eeb2bdbad27316534016f",
        &million,
        out,
    )?;
    let none = digest::sha1(b"");
    line(
        "sha1-empty",
        "da39a3ee5e6b4b0d3255bfef95601890afd80709",
        &none,
        out,
    )
}

// One million times the letter a, in pieces of a thousand.
fn million_a() -> [u8; 20] {
    let piece = [b'a'; 1000];
    let mut h = digest::Hasher::new();
    for _ in 0..1000 {
        h = h.update(&piece);
    }
    h.finish()
}

// RFC 2202, section 3: the seven cases of HMAC-SHA-1, each message in two pieces.
fn codes<W: Write>(out: &mut W) -> io::Result<()> {
    let mac = digest::Key::new(&[11; 20]).code(b"Hi ", b"There");
    line(
        "hmac-1",
        "b617318655057264e28bc0b6fb378c8ef146be00",
        &mac,
        out,
    )?;
    let mac = digest::Key::new(b"Jefe").code(b"what do ya want ", b"for nothing?");
    line(
        "hmac-2",
        "effcdf6ae5eb2fa2d27416d5f184df9c259a7c79",
        &mac,
        out,
    )?;
    let mac = digest::Key::new(&[170; 20]).code(&[221; 50], b"");
    line(
        "hmac-3",
        "125d7342b9ac11cd91a39af48aa17b4f63f175d3",
        &mac,
        out,
    )?;
    let mac = digest::Key::new(&one_up()).code(b"", &[205; 50]);
    line(
        "hmac-4",
        "4c9007f4026250c6bc8414f9bf50c86c2d7235da",
        &mac,
        out,
    )?;
    let mac = digest::Key::new(&[12; 20]).code(b"Test With ", b"Truncation");
    line(
        "hmac-5",
        "4c1a03424b55e07fe7f27be1d58bb9324a9a5a04",
        &mac,
        out,
    )?;
    let large = digest::Key::new(&[170; 80]);
    let mac = large.code(
        b"Test Using Larger Than Block-Size Key",
        b" - Hash Key First",
    );
    line(
        "hmac-6",
        "aa4ae5e15272d00e95705637ce8a3b55ed402112",
        &mac,
        out,
    )?;
    let mac = large.code(
        b"Test Using Larger Than Block-Size Key and Larger",
        b" Than One Block-Size Data",
    );
    line(
        "hmac-7",
        "e8e99d0f45237d786d6bbaa7965c7808bbff1a91",
        &mac,
        out,
    )
}

// The bytes 1 to 25.
fn one_up() -> [u8; 25] {
    std::array::from_fn(|i| (i + 1) as u8)
}

// P_hash (002 section 11.3.2) of "client expansion" and a seed in three pieces, to four lengths.
fn expansions<W: Write>(out: &mut W) -> io::Result<()> {
    let twelve: [u8; 12] = expanded();
    line("expand-12", "057092712772ccceba1ad8cb", &twelve, out)?;
    let twenty: [u8; 20] = expanded();
    line(
        "expand-20",
        "057092712772ccceba1ad8cb9900e98083428285",
        &twenty,
        out,
    )?;
    let sixty_four: [u8; 64] = expanded();
    line(
        "expand-64",
        "057092712772ccceba1ad8cb9900e98083428285abd5e964994c20e3bc92d08a83d0c43a16779931b006c05739b500c25907ccab0c89d1bd32f83e2ac74713d7",
        &sixty_four,
        out,
    )?;
    let hundred: [u8; 100] = expanded();
    line(
        "expand-100",
        "057092712772ccceba1ad8cb9900e98083428285abd5e964994c20e3bc92d08a83d0c43a16779931b006c05739b500c25907ccab0c89d1bd32f83e2ac74713d7333cdcb76909be2e8a4c5e35818afad5dd5cd2cc4a77b326d9d0524efd698adce73fcc87",
        &hundred,
        out,
    )
}

fn expanded<const N: usize>() -> [u8; N] {
    let mut out = [0; N];
    digest::prf(
        b"0123456789:;<=>?@ABC",
        &digest::Mac::client_expansion(),
        b"\x00\x10",
        b"\x80\x81\x82\x83\x84\x85\x86\x87\x88\x89\x8a\x8b\x8c\x8d\x8e\x8f",
        b"\x10\x11\x12\x13\x14\x15\x16\x17\x18\x19\x1a\x1b\x1c\x1d\x1e\x1f",
        &mut out,
    );
    out
}
