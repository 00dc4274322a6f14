// A connection with a ship's unit (01; 02, "A unit that rebooted").
ghost use Rattle.std.specs.Prelude.{◌≡◌};
ghost use Rattle.connection.specs.Connection.{alone};

use crate::handshake::{Handshake, none_started};
use crate::sent::SentRecords;

// One connection with a unit. A unit that rebooted says hello while our side is still Open: the handshake that it starts is
// held beside the open one until its Finished is verified.
#[derive(Clone, Copy)]
pub struct Connection {
    // the open handshake, or the only one
    pub handshake: Handshake,
    // beside an open one: the one that a unit has started, in Replied or Spec; in Idle there is none (no Option: the lent
    // state always has its bytes, and the theorems of `demands` speak of every value)
    pub started: Handshake,
    // the records that we sent since the last start
    pub sent: SentRecords,
}

// A connection of one handshake: none is started beside it, and nothing was sent.
pub fn alone(handshake: Handshake) -> Connection
    ensures { result ≡ alone handshake }
{
    Connection {
        handshake,
        started: none_started(),
        sent: SentRecords::fresh(),
    }
}
