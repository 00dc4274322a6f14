// Lines as the programs read and write them: words between spaces, byte strings in hex, numbers in
// decimal, and a run of lines from input that comes in chunks.
#![tactic(auto)]

pub mod hex;
pub mod number;
pub mod output;
pub mod run;
pub mod said;
pub mod words;
