// The console: one connection, one tally and one gatherer, driven by lines. Each line of standard input is a call; what the call gave, and the
// state that it left, are written to standard output.
#![tactic(auto)]

mod console;
mod gathering;
mod outcome;
mod run;

use console::Console;
use lines::output::Output;
use lines::run::run_lines;
use std::io;

fn main(rt: HostRuntime) -> io::Result<()> {
    let mut console = Console::new();
    let mut out = Output::new(io::writer(&rt));
    run_lines(&mut console, &mut rt.reader(), &mut out)
}
