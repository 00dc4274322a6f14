// A short message taken (02, P2): it is gathered, and the datagram that it then shows is received. A thin call above the
// gatherer and the connection, which knows both only by their contracts.
#![tactic(auto)]

mod take;

pub use take::{Messaged, message, shows};
