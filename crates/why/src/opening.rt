// The facts of a protected record that is refused: keys and window.
ghost use Rattle.std.specs.Prelude.{◌≡◌, ℕ, ◌-◌};
ghost use Rattle.record.specs.Window.{held_width};
ghost use Rattle.connection.specs.Asked.{is_spec};
ghost use Rattle.why.specs.Opening.{under_of, limit_of, too_old_by, repeated_by, forged_once, forged_twice, both_tried, forged_by};

use crate::reason::{Reason, Under};
use connection::asked::Whom;
use connection::connection::Connection;
use connection::state::State;
use record::header::{Content, number_of};
use record::keys::{Keys, key_number};
use record::reader::Record;
use record::window::Window;

// Whose keys a record is judged under.
pub(crate) fn under_of(whom: Whom) -> Under
    ensures { result ≡ under_of whom }
{
    match whom {
        Whom::Only => Under::Started,
        Whom::Open => Under::Open,
        Whom::Started => Under::Started,
        Whom::Newcomer => Under::Started,
    }
}

// 10: up to the limit numbers are too old.
pub(crate) fn too_old(under: Under, number: u16, w: Window) -> Reason
    ensures { result ≡ too_old_by under number w }
{
    Reason::TooOld {
        under,
        number,
        highest: w.highest,
        limit: limit_of(w),
    }
}

// 11: the mark of the number.
pub(crate) fn repeated(under: Under, number: u16, w: Window) -> Reason
    ensures { result ≡ repeated_by under number w }
{
    Reason::Repeated {
        under,
        number,
        highest: w.highest,
        mark: below(w.highest, number),
    }
}

// 9: the keys of the handshake that was asked; a protected handshake record in Open was tried under the started ones first,
// where its change cipher spec has come.
pub(crate) fn forged(c: Connection, whom: Whom, asked: Keys, r: Record) -> Reason
    ensures { result ≡ forged_by c whom asked r }
{
    let started = c.started;
    let state = started.state;
    let content = r.content;
    if both_tried(state, whom, content) {
        let theirs = started.protection;
        let open = c.handshake;
        let ours = open.protection;
        return twice(theirs.keys, ours.keys, r);
    }
    once(asked, r)
}

fn once(keys: Keys, r: Record) -> Reason
    ensures { result ≡ forged_once keys r }
{
    let mac = keys.mac;
    Reason::Forged {
        number: r.number,
        fragment: r.size,
        key: key_number(keys.refresh, r.number),
        code: mac.size(),
    }
}

fn twice(started: Keys, opened: Keys, r: Record) -> Reason
    ensures { result ≡ forged_twice started opened r }
{
    let first = started.mac;
    let second = opened.mac;
    Reason::ForgedTwice {
        number: r.number,
        fragment: r.size,
        started_key: key_number(started.refresh, r.number),
        started_code: first.size(),
        open_key: key_number(opened.refresh, r.number),
        open_code: second.size(),
    }
}

fn both_tried(started: State, whom: Whom, content: Content) -> bool
    ensures { result ≡ both_tried started whom content }
{
    match whom {
        Whom::Only => false,
        Whom::Open => {
            if number_of(content) == 3 {
                return is_spec(started);
            }
            false
        }
        Whom::Started => false,
        Whom::Newcomer => false,
    }
}

fn is_spec(state: State) -> bool
    ensures { result ≡ is_spec state }
{
    match state {
        State::Idle => false,
        State::Replied => false,
        State::Spec => true,
        State::Open => false,
        State::Closed => false,
        State::Barred => false,
    }
}

// The highest number less the width.
fn limit_of(w: Window) -> u16
    ensures { result ≡ limit_of w }
{
    below(w.highest, held(w.width))
}

// The width of a window: one outside 32 to 64 counts as the nearest of these.
fn held(width: u8) -> u16
    ensures { result ≡ held_width width }
{
    if width < 32 {
        return 32;
    }
    if 64 < width {
        return 64;
    }
    width as u16
}

// One number less another, or 0.
fn below(a: u16, b: u16) -> u16
    ensures { result ≡ a - b }
{
    if a < b {
        return 0;
    }
    a - b
}
