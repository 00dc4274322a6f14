// What became of a message, in its 10 bytes.
ghost use Rattle.std.specs.Prelude.{◌≡◌, length};
ghost use Rattle.lentshort.specs.Said.{said_size, saying_of, told};

use digest::put;
use gather::{Answer, Ports, Refusal};

// How many bytes say it.
pub(crate) const SAID: usize = 10;

pub(crate) fn put_said(d: &mut [u8], answer: Result<Answer, Refusal>)
    requires { length d.old ≡ said_size }
    ensures { d.new ≡ saying_of answer d.old }
{
    match answer {
        Err(_) => return,
        Ok(Answer::Waiting(ports, reference, have, total)) => {
            put_told(d, [1, reference, (have % 256) as u8, total], ports, 0);
        }
        Ok(Answer::Received(ports, start)) => put_told(d, [2, 0, 0, 0], ports, start),
        Ok(Answer::Gathered(ports, size)) => put_told(d, [3, 0, 0, 0], ports, size),
    }
}

// What kind of answer it is, with three numbers of one that waits, and then the ports and the place or the size.
fn put_told(d: &mut [u8], kind: [u8; 4], ports: Ports, n: usize)
    requires { length d.old ≡ said_size }
    ensures { d.new ≡ told kind ports n }
{
    put(d, 0, &kind);
    put(d, 4, &ports.destination.to_be_bytes());
    put(d, 6, &ports.originator.to_be_bytes());
    put(d, 8, &((n % 65536) as u16).to_be_bytes());
}
