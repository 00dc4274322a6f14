// What the console says of a call on its connection: its first line, a line for each record of a receive, the bytes that were written
// out, and the state line.
#![tactic(auto)]

pub mod answer;
pub mod outcome;
pub mod status;
