// Saving: a connection laid into its bytes.
ghost use Rattle.std.specs.Prelude.{◌≡◌, ◌<◌, length};
ghost use Rattle.digest.specs.Bytes.{laid_over};
ghost use Rattle.lent.specs.Fields.{joined};
ghost use Rattle.lent.specs.Saved.{saved_of, saved_handshake, loaded, state_size, handshake_size, RangedHandshake, Is};
ghost use Rattle.lent.specs.Saved.{state_number, head_fields, kept_fields, sent_laid, SentRanged};

use crate::bytes::{eight, four};
use crate::parts::{agreed_bytes, session_bytes, standing_bytes, words};
use connection::connection::Connection;
use connection::handshake::{Handshake, Kept};
use connection::sent::SentRecords;
use connection::state::State;
use digest::put;

// "WTG", and 4 for this layout.
pub(crate) const MARK: u32 = 0x57544704;

// How many bytes hold a connection.
pub(crate) const SIZE: usize = 940;

// The connection, over all the bytes: the records sent, the handshake, the one that was started beside it.
pub(crate) fn put_connection(d: &mut [u8], c: Connection)
    requires { length d.old ≡ state_size }
    ensures d_after { d.new ≡ saved_of c }
    ensures d_after_2 { loaded d.new ≡ Is c }
{
    let sent = c.sent;
    put_head(d, sent.count);
    put(d, 8, &words(sent.checksums));
    put_handshake(&mut d[40..490], c.handshake);
    put_handshake(&mut d[490..940], c.started);
}

fn put_head(d: &mut [u8], count: u32)
    requires { length d.old ≡ state_size }
    ensures d_after { d.new ≡ laid_over d.old 0 (joined (head_fields count)) }
    ensures count_len { length (joined (head_fields count)) ≡ 8 }
    ensures count_bound { count < 4294967296 }
{
    let mark = four(MARK);
    put(d, 0, &mark);
    let records = four(count);
    put(d, 4, &records);
}

// The records sent, behind a mark of four bytes, where all of them fit; else nothing is written.
pub fn lay_sent(d: &mut [u8], sent: SentRecords)
    ensures exact { d.new ≡ sent_laid d.old sent }
    ensures ranged { SentRanged sent }
{
    let records = four(sent.count);
    let sums = words(sent.checksums);
    if d.len() < 40 {
        return;
    }
    put(d, 4, &records);
    put(d, 8, &sums);
}

// A handshake, over all of its bytes.
fn put_handshake(d: &mut [u8], h: Handshake)
    requires { length d.old ≡ handshake_size }
    ensures d_after { d.new ≡ saved_handshake h }
    ensures h_len { length (saved_handshake h) ≡ handshake_size }
    ensures ranged_handshake { RangedHandshake h }
{
    let protection = h.protection;
    let keys = protection.keys;
    put(
        d,
        0,
        &session_bytes(state_number(h.state), h.id, keys.secret),
    );
    put(d, 29, &agreed_bytes(keys, h.expected));
    put_kept(d, h.kept);
    put(d, 431, &standing_bytes(protection));
}

// (State is another crate's, so `From` cannot stand here.)
pub fn state_number(state: State) -> u8
    ensures exact { result ≡ state_number state }
{
    match state {
        State::Idle => 0,
        State::Replied => 1,
        State::Spec => 2,
        State::Open => 3,
        State::Closed => 4,
        State::Barred => 5,
    }
}

fn put_kept(d: &mut [u8], kept: Kept)
    requires { length d.old ≡ handshake_size }
    ensures d_after { d.new ≡ laid_over d.old 75 (joined (kept_fields kept)) }
    ensures kept_len { length (joined (kept_fields kept)) ≡ 356 }
    ensures hello_len { (length kept.hello ≡ 256) × ((kept.heard < 18446744073709551616) ×
        ((length kept.reply ≡ 84) × (kept.size < 18446744073709551616))) }
{
    let hello = kept.hello;
    put(d, 75, &hello);
    let heard = eight(kept.heard as u64);
    put(d, 331, &heard);
    let reply = kept.reply;
    put(d, 339, &reply);
    let size = eight(kept.size as u64);
    put(d, 423, &size);
}
