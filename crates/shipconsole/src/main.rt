// The ship's console: one unit and one tally, driven by lines. Each line of standard input is a call; what the call gave, and the
// state that it left, are written to standard output.
#![tactic(auto)]

mod call;
mod console;
mod outcome;
mod run;
mod status;

use console::Console;
use lines::output::Output;
use lines::run::run_lines;
use std::io;

fn main(rt: HostRuntime) -> io::Result<()> {
    let mut console = Console::new();
    let mut out = Output::new(io::writer(&rt));
    run_lines(&mut console, &mut rt.reader(), &mut out)
}
