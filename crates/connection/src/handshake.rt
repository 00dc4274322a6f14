// One handshake: its session, the Finished that it expects, the hello and the reply that are kept, and its protection.
// Every value of these structs is safe to pass in: no length or number in them is trusted.
ghost use Rattle.std.specs.Prelude.{◌≡◌};
ghost use Rattle.connection.specs.Handshake.{with_state, with_protection, barred, reopened, blank_handshake, none_started, newcomer_to, new_handshake, no_session, nothing_kept, unkeyed, new_protection};

use crate::state::State;
use digest::Mac;
use record::keys::Keys;
use record::protection::Protection;
use record::window::{WIDTH, Window};

// The session planted at fitting out. In a handshake its secret is what the protection's keys are made of.
#[derive(Clone, Copy)]
pub struct Session {
    pub id: [u8; 8],
    pub secret: [u8; 20],
}

// The hello that was answered, as a whole message, and the reply to it; each at the front of its array.
#[derive(Clone, Copy)]
pub struct Kept {
    pub hello: [u8; 256],
    pub heard: usize,
    pub reply: [u8; 84],
    pub size: usize,
}

#[derive(Clone, Copy)]
pub struct Handshake {
    pub state: State,
    // the session's identifier
    pub id: [u8; 8],
    // the contents that the unit's Finished must have
    pub expected: [u8; 12],
    pub kept: Kept,
    pub protection: Protection,
}

impl Handshake {
    // The handshake in another state.
    pub fn with_state(self, state: State) -> Handshake
        ensures { result ≡ with_state self state }
    {
        let id = self.id;
        let expected = self.expected;
        let kept = self.kept;
        let protection = self.protection;
        Handshake {
            state,
            id,
            expected,
            kept,
            protection,
        }
    }

    // The handshake with another protection.
    pub fn with_protection(self, protection: Protection) -> Handshake
        ensures { result ≡ with_protection self protection }
    {
        let mut h = self;
        h.protection = protection;
        h
    }

    // Start again: Idle, with no window and no kept hello.
    pub fn reopened(self) -> Handshake
        ensures { result ≡ reopened self }
    {
        let id = self.id;
        let expected = self.expected;
        let protection = self.protection;
        let window = protection.window;
        Handshake {
            state: State::Idle,
            id,
            expected,
            kept: nothing_kept(),
            protection: protection.with_window(window.emptied()),
        }
    }

    // Barred: the identifier, the secret, the randoms, the expected Finished, the kept hello and its reply are blanked
    // (002 10.2.2).
    pub fn barred(self) -> Handshake
        ensures { result ≡ barred self }
    {
        let protection = self.protection;
        Handshake {
            state: State::Barred,
            id: [0; 8],
            expected: [0; 12],
            kept: nothing_kept(),
            protection: unkeyed(protection),
        }
    }
}

// What stands beside a refused fresh: blank and Barred, so that nobody can open it.
pub fn blank() -> Handshake
    ensures { result ≡ blank_handshake }
{
    made(no_session(), WIDTH, State::Barred)
}

// What stands in the place of a started handshake where there is none.
pub fn none_started() -> Handshake
    ensures { result ≡ none_started }
{
    made(no_session(), WIDTH, State::Idle)
}

// A handshake beside h in which nothing has happened: of the same session, with a window of the same width.
pub fn newcomer(h: Handshake) -> Handshake
    ensures { result ≡ newcomer_to h }
{
    let id = h.id;
    let protection = h.protection;
    let keys = protection.keys;
    let secret = keys.secret;
    let window = protection.window;
    made(Session { id, secret }, window.width, State::Idle)
}

// A handshake of a session in which nothing has happened, with a window of this width.
pub fn made(session: Session, width: u8, state: State) -> Handshake
    ensures { result ≡ new_handshake session width state }
{
    let id = session.id;
    let secret = session.secret;
    Handshake {
        state,
        id,
        expected: [0; 12],
        kept: nothing_kept(),
        protection: new_protection(secret, width),
    }
}

// The protection of a secret under which nothing has happened.
fn new_protection(secret: [u8; 20], width: u8) -> Protection
    ensures { result ≡ new_protection secret width }
{
    Protection {
        keys: Keys {
            secret,
            server: [0; 16],
            client: [0; 16],
            mac: Mac::Sha80,
            refresh: 0,
        },
        window: Window::fresh(width),
        protected: 0,
        clear: 0,
    }
}

// The protection without its secret and its randoms.
fn unkeyed(protection: Protection) -> Protection
    ensures { result ≡ unkeyed protection }
{
    let keys = protection.keys;
    let mac = keys.mac;
    let window = protection.window;
    Protection {
        keys: Keys {
            secret: [0; 20],
            server: [0; 16],
            client: [0; 16],
            mac,
            refresh: keys.refresh,
        },
        window,
        protected: protection.protected,
        clear: protection.clear,
    }
}

fn no_session() -> Session
    ensures { result ≡ no_session }
{
    Session {
        id: [0; 8],
        secret: [0; 20],
    }
}

fn nothing_kept() -> Kept
    ensures { result ≡ nothing_kept }
{
    Kept {
        hello: [0; 256],
        heard: 0,
        reply: [0; 84],
        size: 0,
    }
}
