// The gatherer's step on lent bytes: its slots are loaded, the store is lent on where it stands, and what changed is saved.
ghost use Rattle.std.specs.Prelude.{◌≡◌, length};
ghost use Rattle.gather.specs.Gatherer.{step_of};
ghost use Rattle.lentshort.specs.Saved.{gatherer_size, gatherer_in, store_in, loaded_gatherer};
ghost use Rattle.lentshort.specs.Gathered.{drops, touches, gatherer_after, gatherer_then};

use crate::load::gatherer_in;
use crate::save::put_gatherer;
use gather::{Answer, Refusal};

pub(crate) fn stepped(d: &mut [u8], message: &[u8], assembly: &mut [u8]) -> Result<Answer, Refusal>
    requires { length d.old ≡ gatherer_size }
    ensures value { result ≡ (step_of (gatherer_in d.old) (store_in d.old) message.now assembly.old).answer }
    ensures assembly_after { assembly.new ≡ (step_of (gatherer_in d.old) (store_in d.old) message.now assembly.old).assembly }
    ensures d_after { d.new ≡ gatherer_after d.old (step_of (gatherer_in d.old) (store_in d.old) message.now assembly.old) }
    ensures d_after_2 { loaded_gatherer d.new ≡ gatherer_then d.old (step_of (gatherer_in d.old) (store_in d.old) message.now assembly.old) }
{
    let mut g = gatherer_in(d);
    let answer = g.step(&mut d[100..], message, assembly);
    if touching(answer) {
        put_gatherer(d, g);
    }
    answer
}

// Whether an answer touches the gathering.
fn touching(answer: Result<Answer, Refusal>) -> bool
    ensures { result ≡ touches answer }
{
    match answer {
        Ok(answer) => matches!(answer, Answer::Waiting(_, _, _, _) | Answer::Gathered(_, _)),
        Err(refusal) => dropping(refusal),
    }
}

// 22 alone drops the reference.
fn dropping(refusal: Refusal) -> bool
    ensures { result ≡ drops refusal }
{
    match refusal {
        Refusal::Argument => false,
        Refusal::Room => false,
        Refusal::Header => false,
        Refusal::Differs => false,
        Refusal::Full => false,
        Refusal::Long => true,
    }
}
