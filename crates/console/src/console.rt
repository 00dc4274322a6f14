// What the console keeps from line to line.
use connection::connection::Connection;
use connection::receive::Received;
use connection::tally::Tally;
use gather::Gatherer;

// One connection, one tally and one gatherer with its store; no connection while no `fresh` has succeeded.
#[derive(Clone, Copy)]
pub struct Console {
    pub connection: Option<Connection>,
    pub tally: Tally,
    pub gatherer: Gatherer,
    pub store: [u8; 5600],
}

impl Console {
    // No connection yet.
    pub fn new() -> Console {
        Console {
            connection: None,
            tally: Tally::fresh(),
            gatherer: Gatherer::fresh(),
            store: [0; 5600],
        }
    }

    // A fresh connection, a fresh tally and a fresh gatherer.
    pub fn connect(&mut self, connection: Connection) {
        self.connection = Some(connection);
        self.tally = Tally::fresh();
        self.gatherer = Gatherer::fresh();
        self.store = [0; 5600];
    }

    // What a receive leaves, with its answers counted.
    pub fn count(&mut self, received: Received) {
        self.connection = Some(received.connection);
        self.tally = self.tally.with_answers(received.answers);
    }
}
