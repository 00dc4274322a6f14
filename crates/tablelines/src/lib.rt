// What the console says of lines that ask a table of the papers: MAC kinds by edition, explicit sets by suite. They need no connection.
#![tactic(auto)]

pub mod mac;
pub mod set;
