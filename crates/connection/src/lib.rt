// Layer 4 of the gateway: one connection with a ship's unit (01). Its calls are fresh, receive, send data, send alert,
// close and start again. No call has a `requires`: every value that a caller can make is safe to pass in.
#![tactic(auto)]

pub mod answer;
pub mod asked;
pub mod calls;
mod clear;
pub mod connection;
pub mod handshake;
mod judge;
pub mod point;
mod protected;
pub mod receive;
pub mod refusal;
mod reply;
pub mod send;
pub mod sent;
pub mod state;
pub mod step;
pub mod tally;
pub mod told;
