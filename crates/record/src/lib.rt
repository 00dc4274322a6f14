// Layer 2 of the gateway: records on the wire, the receive window, key numbers, record codes and
// the alert checksum (002 sections 9, 10.2 and 11.2). No call here has a `requires`: every value
// that a caller can make is safe to pass in.
#![tactic(auto)]

pub mod checksum;
pub mod code;
pub mod datagram;
pub mod header;
pub mod keys;
pub mod mask;
pub mod protection;
pub mod reader;
pub mod window;
pub mod written;
