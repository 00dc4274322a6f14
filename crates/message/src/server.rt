// The ServerHello, written (002 10.5.1.3).
ghost use Rattle.std.specs.Prelude.{◌≡◌, length};
ghost use Rattle.message.specs.Buffer.{over, fitting};
ghost use Rattle.message.specs.Server.{reply_of};

use crate::acceptance::Plan;
use crate::put;

// Writes the ServerHello of a plan, with our random and the identifier of the session, at the front of the buffer, and
// gives its size. A random that is not 16 bytes, an identifier over 8, or a buffer that is too small gives 0, and
// nothing is written.
pub fn write(random: &[u8], session: &[u8], plan: Plan, out: &mut [u8]) -> usize
    ensures value { result ≡ length (fitting (length out.old) (reply_of random.now session.now plan)) }
    ensures out_after { out.new ≡ over out.old (fitting (length out.old) (reply_of random.now session.now plan)) }
{
    if random.len() != 16 {
        return 0;
    }
    if 8 < session.len() {
        return 0;
    }
    if out.len() < 27 + session.len() {
        return 0;
    }
    let mac = plan.mac;
    let head = [2, 0, 24 + session.len() as u8, 1];
    let tail = [plan.key, 0, mac.number(), 0, 2, plan.refresh];
    let mut at = put::put(out, 0, &head);
    at = put::put(out, at, random);
    at = put::put_short(out, at, session);
    put::put(out, at, &tail)
}
