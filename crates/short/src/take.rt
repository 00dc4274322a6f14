// One short message: 16, 6, then 19 to 22 of the gatherer, then what receive gives of the datagram that is shown.
ghost use Rattle.std.specs.Prelude.{◌≡◌, length};
ghost use Rattle.gather.specs.Gatherer as G;
ghost use Rattle.short.specs.Message.{is_shown, taken_of, heard_of, leaves, gathered_of, message_of};

use connection::connection::Connection;
use connection::receive::{Received, receive};
use gather::{Answer, Gatherer, Refusal, datagram};

// What became of a message.
#[derive(Clone, Copy)]
pub struct Messaged {
    pub answer: Result<Answer, Refusal>,
    // what the datagram got; of an answer that shows none, nothing, and the connection is as it was
    pub received: Option<Received>,
}

// Takes a message, the store and the assembly buffer of the gatherer, our random for a new reply, and room of at least 128
// bytes for it. Refusals of the message: 16, 6, 19 to 22. 16 and 6 leave the gathering alone. A datagram that is shown is
// received as any other: 1 to 5 leave the output and the connection, and its reference is free.
pub fn message(
    c: Connection,
    g: &mut Gatherer,
    store: &mut [u8],
    bytes: &[u8],
    assembly: &mut [u8],
    random: &[u8],
    out: &mut [u8],
) -> Messaged
    ensures exact { leaves result g.new store.new assembly.new out.new
        ≡ message_of c g.old store.old bytes.now assembly.old random.now out.old }
{
    let answer = gathered(g, store, bytes, assembly, random, out.len());
    let received = taken(c, answer, bytes, assembly, random, out);
    Messaged { answer, received }
}

// Whether an answer shows a datagram.
pub fn shows(answer: Result<Answer, Refusal>) -> bool
    ensures exact { result ≡ is_shown answer }
{
    matches!(answer, Ok(Answer::Received(_, _) | Answer::Gathered(_, _)))
}

// What the gatherer makes of the message, whatever the connection: first 16 and 6 for what is lent to a receive.
fn gathered(
    g: &mut Gatherer,
    store: &mut [u8],
    bytes: &[u8],
    assembly: &mut [u8],
    random: &[u8],
    room: usize,
) -> Result<Answer, Refusal>
    ensures { G.leaves g.new result store.new assembly.new ≡ gathered_of g.old store.old bytes.now assembly.old random.now room }
{
    if random.len() != 16 {
        return Err(Refusal::Argument);
    }
    if store.len() < 5600 {
        return Err(Refusal::Argument);
    }
    if room < 128 {
        return Err(Refusal::Room);
    }
    g.step(store, bytes, assembly)
}

// The datagram received, where the gatherer's answer shows one.
fn taken<'a>(
    c: Connection,
    answer: Result<Answer, Refusal>,
    bytes: &'a [u8],
    assembly: &'a [u8],
    random: &[u8],
    out: &mut [u8],
) -> Option<Received>
    ensures value { result ≡ taken_of c answer bytes.now assembly.now random.now (length out.old) }
    ensures out_after { out.new ≡ heard_of c answer bytes.now assembly.now random.now out.old }
{
    if shows(answer) {
        return Some(receive(c, datagram(answer, bytes, assembly), random, out));
    }
    None
}
