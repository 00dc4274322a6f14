// Reports that come as short messages (02, P2): the user data header of GSM 03.40, and the gatherer of parts.
#![tactic(auto)]

mod gatherer;
mod header;
mod refusal;
mod slot;
mod spot;

pub use gatherer::{Answer, Gatherer, datagram};
pub use header::{Heading, Place, Ports, read};
pub use refusal::{Refusal, refusal_number};
pub use slot::Slot;
