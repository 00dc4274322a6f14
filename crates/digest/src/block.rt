// One block of SHA-1 (FIPS 180-1 sections 3 to 8): sixteen words, turned over in place, and eighty rounds.
//
// Each word is made just before its round: the first sixteen are read from the block, and a later one takes the place
// of the word sixteen rounds before (section 8). Small loops with run-time ends, each called with constants: the
// compiler then unrolls each whole, every place is a constant, and the words live in registers (docs/SPEED.md).
ghost use Rattle.std.specs.Prelude.{◌≡◌, ℕ, ◌+◌, ◌*◌, ◌<◌, ◌≤◌, ◌⊎◌, List, length};
ghost use Rattle.digest.specs.Bytes.{word_at};
ghost use Rattle.digest.specs.Midway.{turned_over, Reached};
ghost use Rattle.digest.specs.Sha1.{f, k, initial_state, words, round, joined, compress, absorb, blocks_of};

// The five words of FIPS 180-1 section 7.
#[derive(Clone, Copy)]
pub struct State {
    pub a: u32,
    pub b: u32,
    pub c: u32,
    pub d: u32,
    pub e: u32,
}

// Section 6: the constants of the four twenties of rounds.
const FIRST: u32 = 0x5a827999;

const SECOND: u32 = 0x6ed9eba1;

const THIRD: u32 = 0x8f1bbcdc;

const FOURTH: u32 = 0xca62c1d6;

// A block on its way: the state after some rounds, and the words of the last sixteen of them, that of round t at t mod 16.
#[derive(Clone, Copy)]
struct Midway {
    state: State,
    words: [u32; 16],
}

// The words that the computation starts with.
pub(crate) fn initial() -> State
    ensures { result ≡ initial_state }
{
    State {
        a: 0x67452301,
        b: 0xefcdab89,
        c: 0x98badcfe,
        d: 0x10325476,
        e: 0xc3d2e1f0,
    }
}

// The state after the whole blocks of s.
pub(crate) fn absorbed(h: State, s: &[u8]) -> State
    ensures { result ≡ absorb s.now (blocks_of s.now) h }
{
    let (blocks, _) = s.as_chunks::<64>();
    let mut g = h;
    for block in blocks {
        g = compressed(g, block);
    }
    g
}

// The state after a block (section 7, steps a to e).
fn compressed(h: State, block: &[u8; 64]) -> State
    requires { length block.now ≡ 64 }
    ensures { result ≡ compress block.now h }
{
    let start = Midway {
        state: h,
        words: [0; 16],
    };
    let early = first(first(start, block, 0, 8), block, 8, 16);
    let one = late(early, 16, 20, choice, FIRST);
    let two = late(late(one, 20, 30, parity, SECOND), 30, 40, parity, SECOND);
    let three = late(late(two, 40, 50, majority, THIRD), 50, 60, majority, THIRD);
    let four = late(late(three, 60, 70, parity, FOURTH), 70, 80, parity, FOURTH);
    let last = four.state;
    added(h, last)
}

// Step e: the words of the two states, added.
fn added(g: State, h: State) -> State
    ensures { result ≡ joined g h }
{
    State {
        a: g.a.wrapping_add(h.a),
        b: g.b.wrapping_add(h.b),
        c: g.c.wrapping_add(h.c),
        d: g.d.wrapping_add(h.d),
        e: g.e.wrapping_add(h.e),
    }
}

// The word that stands at `at`, its first byte the most significant. (With `from_be_bytes` SHA-1 is up to three in a hundred
// slower: docs/SPEED.md.)
fn word(s: &[u8], at: usize) -> u32
    requires { at + 3 < length s.now }
    ensures { result ≡ word_at s.now at }
{
    ((u32::from(s[at]) * 256 + u32::from(s[at + 1])) * 256 + u32::from(s[at + 2])) * 256
        + u32::from(s[at + 3])
}

// Step a: rounds of the first sixteen, each with its word of the block. (In one function with `late` each call
// would say, beside what it says of f, what a closure gives for the word: longer than both loops.)
fn first(p: Midway, block: &[u8; 64], from: usize, end: usize) -> Midway
    requires { (length block.now ≡ 64) × (from ≤ end) × (end ≤ 16) }
    ensures { (h : State) → Reached (words block.now 16) h from p → Reached (words block.now 16) h end result }
{
    let mut g = p.state;
    let mut w = p.words;
    for t in from..end {
        let x = word(block, 4 * t);
        w[t % 16] = x;
        g = turned(g, choice(g.b, g.c, g.d), x, FIRST);
    }
    Midway { state: g, words: w }
}

// Step b as section 8 has it: the word of round t, from those of the sixteen rounds before.
fn next(w: [u32; 16], t: usize) -> u32
    requires { (length w ≡ 16) × (t < 80) }
    ensures { result ≡ turned_over w t }
{
    (w[(t + 13) % 16] ^ w[(t + 8) % 16] ^ w[(t + 2) % 16] ^ w[t % 16]).rotate_left(1)
}

// Later rounds, each with its word, and the function and the constant of their twenty.
fn late<F: Fn(u32, u32, u32) -> u32>(
    p: Midway,
    from: usize,
    end: usize,
    function: F,
    constant: u32,
) -> Midway
    requires places { (16 ≤ from) × (from ≤ end) × (end ≤ 80) }
    requires callable { F.IsAlwaysCallable function }
    requires function { (t b c d x : ℕ) → from ≤ t → t < end → F.post function b c d x → x ≡ f t b c d }
    requires constant { (t : ℕ) → from ≤ t → t < end → constant ≡ k t }
    ensures { (m : List ℕ) (h : State) → length m ≡ 16 → Reached m h from p → Reached m h end result }
{
    let mut g = p.state;
    let mut w = p.words;
    for t in from..end {
        let x = next(w, t);
        w[t % 16] = x;
        g = turned(g, function(g.b, g.c, g.d), x, constant);
    }
    Midway { state: g, words: w }
}

// Section 5: the function of the first twenty rounds,
fn choice(b: u32, c: u32, d: u32) -> u32
    ensures { (t : ℕ) → t < 20 → result ≡ f t b c d }
{
    (b & c) | (!b & d)
}

// of the second and of the fourth,
fn parity(b: u32, c: u32, d: u32) -> u32
    ensures { (t : ℕ) → ((20 ≤ t) × (t < 40)) ⊎ (60 ≤ t) → result ≡ f t b c d }
{
    b ^ c ^ d
}

// and of the third.
fn majority(b: u32, c: u32, d: u32) -> u32
    ensures { (t : ℕ) → 40 ≤ t → t < 60 → result ≡ f t b c d }
{
    (b & c) | (b & d) | (c & d)
}

// Step d, with the values of f, W and K for round t given.
fn turned(h: State, ft: u32, wt: u32, kt: u32) -> State
    ensures { (t : ℕ) → ft ≡ f t h.b h.c h.d → kt ≡ k t → result ≡ round t wt h }
{
    let temp = h
        .a
        .rotate_left(5)
        .wrapping_add(ft)
        .wrapping_add(h.e)
        .wrapping_add(wt)
        .wrapping_add(kt);
    State {
        a: temp,
        b: h.a,
        c: h.b.rotate_left(30),
        d: h.c,
        e: h.d,
    }
}
