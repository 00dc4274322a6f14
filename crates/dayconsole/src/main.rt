// The day console: a list of reports and a file at hand, driven by lines. Each line of standard
// input is a call; what the call gave, and how much is at hand afterwards, are written to standard
// output.
#![tactic(auto)]

mod call;
mod day;
mod outcome;
mod run;

use day::Day;
use lines::output::Output;
use lines::run::run_lines;
use std::io;

fn main(rt: HostRuntime) -> io::Result<()> {
    let mut day = Day::new();
    let mut out = Output::new(io::writer(&rt));
    run_lines(&mut day, &mut rt.reader(), &mut out)
}
