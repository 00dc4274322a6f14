// The unit's end of one connection: its session, what it offered, the Finished that it expects, its flight, the records that it
// sent, and its protection. Every value of this struct is safe to pass in: no number in it is trusted.
ghost use Rattle.std.specs.Prelude.{◌≡◌};
ghost use Rattle.unit.specs.Unit.{new_unit, blank_unit, new_protection, with_state, with_window, with_sent, greeted, opened, reopened, barred, unkeyed, left_by};

use crate::state::{State, settled};
use crate::step::{Move, Step};
use connection::sent::SentRecords;
use digest::Mac;
use message::offer::{Kinds, Offer};
use record::checksum::checksum;
use record::keys::Keys;
use record::protection::Protection;
use record::window::{WIDTH, Window};

#[derive(Clone, Copy)]
pub struct Unit {
    pub state: State,
    // the session's identifier
    pub id: [u8; 8],
    // what the hello offered
    pub offer: Offer,
    // the contents that the shore's Finished must have
    pub expected: [u8; 12],
    // change cipher spec and our Finished, at the front
    pub flight: [u8; 44],
    // the records that we sent since the last start
    pub sent: SentRecords,
    // the client random in its keys is that of the last hello
    pub protection: Protection,
}

impl Unit {
    // The unit in another state.
    pub fn with_state(self, state: State) -> Unit
        ensures { result ≡ with_state self state }
    {
        let id = self.id;
        let offer = self.offer;
        let expected = self.expected;
        let flight = self.flight;
        let sent = self.sent;
        let protection = self.protection;
        Unit {
            state,
            id,
            offer,
            expected,
            flight,
            sent,
            protection,
        }
    }

    // The unit with another window.
    pub fn with_window(self, window: Window) -> Unit
        ensures { result ≡ with_window self window }
    {
        let protection = self.protection;
        let mut u = self;
        u.protection = protection.with_window(window);
        u
    }

    // The unit after a record was sent.
    pub fn with_sent(self, protection: Protection, checksum: u32) -> Unit
        ensures { result ≡ with_sent self protection checksum }
    {
        let sent = self.sent;
        let mut u = self;
        u.protection = protection;
        u.sent = sent.with_record(checksum);
        u
    }

    // The unit after its hello, with this random and this offer, was sent.
    pub fn greeted(self, random: [u8; 16], offer: Offer, checksum: u32) -> Unit
        ensures { result ≡ greeted self random offer checksum }
    {
        let id = self.id;
        let expected = self.expected;
        let flight = self.flight;
        let sent = self.sent;
        let protection = self.protection;
        let keys = protection.keys;
        let secret = keys.secret;
        let server = keys.server;
        let mac = keys.mac;
        let window = protection.window;
        Unit {
            state: State::Sent,
            id,
            offer,
            expected,
            flight,
            sent: sent.with_record(checksum),
            protection: Protection {
                keys: Keys {
                    secret,
                    server,
                    client: random,
                    mac,
                    refresh: keys.refresh,
                },
                window,
                protected: 0,
                clear: 2,
            },
        }
    }

    // The unit after the shore's Finished: the two records of its flight are sent.
    pub fn opened(self) -> Unit
        ensures { result ≡ opened self }
    {
        let id = self.id;
        let offer = self.offer;
        let expected = self.expected;
        let flight = self.flight;
        let sent = self.sent;
        let protection = self.protection;
        let keys = protection.keys;
        let mac = keys.mac;
        let window = protection.window;
        let end = 24 + mac.size();
        let change = checksum(&flight[..6]);
        let finished = checksum(&flight[6..end]);
        Unit {
            state: State::Opening,
            id,
            offer,
            expected,
            flight,
            sent: sent.with_record(change).with_record(finished),
            protection: Protection {
                keys,
                window,
                protected: 1,
                clear: 2,
            },
        }
    }

    // Start again: Idle, with no window, no offer, no flight and no records sent.
    pub fn reopened(self) -> Unit
        ensures { result ≡ reopened self }
    {
        let id = self.id;
        let expected = self.expected;
        let protection = self.protection;
        let window = protection.window;
        Unit {
            state: State::Idle,
            id,
            offer: Offer {
                kinds: Kinds::Sha80,
                refresh: 0,
            },
            expected,
            flight: [0; 44],
            sent: SentRecords::fresh(),
            protection: protection.with_window(window.emptied()),
        }
    }

    // Barred: the identifier, the secret, the randoms, the expected Finished and the offer are blanked (002 10.2.2). The
    // flight, which was on the wire, is no secret and stays.
    pub fn barred(self) -> Unit
        ensures { result ≡ barred self }
    {
        let flight = self.flight;
        let sent = self.sent;
        let protection = self.protection;
        Unit {
            state: State::Barred,
            id: [0; 8],
            offer: Offer {
                kinds: Kinds::Sha80,
                refresh: 0,
            },
            expected: [0; 12],
            flight,
            sent,
            protection: unkeyed(protection),
        }
    }

    // The unit that a step leaves.
    pub(crate) fn left_by(self, step: Step) -> Unit
        ensures { result ≡ left_by self step }
    {
        let state = self.state;
        let next = step.next;
        let u = self.with_window(step.window);
        match next {
            Move::Stay => u,
            Move::Change => u.with_state(State::Spec),
            Move::Finish => u.opened(),
            Move::Settle => u.with_state(settled(state)),
            Move::Close => u.with_state(State::Closed),
            Move::Bar => u.barred(),
        }
    }
}

// What stands beside a refused fresh: blank and Barred, so that nobody can open it.
pub fn blank() -> Unit
    ensures { result ≡ blank_unit }
{
    made([0; 8], [0; 20], WIDTH, State::Barred)
}

// The unit of a session in which nothing has happened, with a window of this width.
pub fn made(id: [u8; 8], secret: [u8; 20], width: u8, state: State) -> Unit
    ensures { result ≡ new_unit id secret width state }
{
    Unit {
        state,
        id,
        offer: Offer {
            kinds: Kinds::Sha80,
            refresh: 0,
        },
        expected: [0; 12],
        flight: [0; 44],
        sent: SentRecords::fresh(),
        protection: new_protection(secret, width),
    }
}

// The protection of a secret under which nothing has happened.
fn new_protection(secret: [u8; 20], width: u8) -> Protection
    ensures { result ≡ new_protection secret width }
{
    Protection {
        keys: Keys {
            secret,
            server: [0; 16],
            client: [0; 16],
            mac: Mac::Sha80,
            refresh: 0,
        },
        window: Window::fresh(width),
        protected: 0,
        clear: 0,
    }
}

// The protection without its secret and its randoms.
fn unkeyed(protection: Protection) -> Protection
    ensures { result ≡ unkeyed protection }
{
    let keys = protection.keys;
    let mac = keys.mac;
    let window = protection.window;
    Protection {
        keys: Keys {
            secret: [0; 20],
            server: [0; 16],
            client: [0; 16],
            mac,
            refresh: keys.refresh,
        },
        window,
        protected: protection.protected,
        clear: protection.clear,
    }
}
