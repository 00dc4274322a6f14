// The shipboard end of the link: one connection of a ship's unit with the shore (02, P7), built to the shore's rules. Its calls
// are fresh, hello, again, receive, send data, send alert, close and start again. No call has a `requires`: every value that a
// caller can make is safe to pass in.
#![tactic(auto)]

pub mod agree;
pub mod answer;
pub mod calls;
pub mod clear;
pub mod hello;
pub mod judge;
pub mod protected;
pub mod receive;
pub mod send;
pub mod state;
pub mod step;
pub mod tally;
pub mod unit;
