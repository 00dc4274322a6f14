// Which call of the console a line makes. Its words are all read here, so that a call that is run has arguments.
#![tactic(auto)]

pub mod call;
pub mod short;
