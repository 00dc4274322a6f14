// What the console keeps from line to line.
use connection::tally::Tally;
use unit::receive::Received;
use unit::tally;
use unit::unit::Unit;

// One unit and one tally; no unit while no `fresh` has succeeded.
#[derive(Clone, Copy)]
pub struct Console {
    pub unit: Option<Unit>,
    pub tally: Tally,
}

impl Console {
    // No unit yet.
    pub fn new() -> Console {
        Console {
            unit: None,
            tally: Tally::fresh(),
        }
    }

    // A fresh unit and a fresh tally.
    pub fn connect(&mut self, unit: Unit) {
        self.unit = Some(unit);
        self.tally = Tally::fresh();
    }

    // What a receive leaves, with its answers counted.
    pub fn count(&mut self, received: Received) {
        self.unit = Some(received.unit);
        self.tally = tally::counted(self.tally, received);
    }
}
