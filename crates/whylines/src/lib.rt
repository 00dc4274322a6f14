// The line `why EDITION DATAGRAM RANDOM INDEX` of the console: the reason in words, with its facts (02, "Why was this report dropped?").
#![tactic(auto)]

mod asked;
mod content;
mod facts;
mod framing;
mod hello;
mod point;

pub use asked::{put_asked, put_why};
