// What the console says of short messages: what the gatherer made of one, and what it holds.
#![tactic(auto)]

pub mod message;
pub mod parts;
