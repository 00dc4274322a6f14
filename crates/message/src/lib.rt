// Layer 3: messages (002 section 10). Hellos, alerts, change cipher spec and Finished, read and written exactly.
#![tactic(auto)]

pub mod acceptance;
pub mod agreement;
pub mod alert;
pub mod change;
pub mod field;
pub mod finished;
pub mod handshake;
pub mod hello;
pub mod keys;
pub mod offer;
mod put;
pub mod request;
pub mod server;
pub mod server_hello;
pub mod set;
pub mod set_writer;
pub mod writer;
