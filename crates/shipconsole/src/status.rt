// The state line.
use crate::console::Console;
use calllines::status::{put_tally, put_window};
use std::io::Write;
use std::{fmt, io};
use unit::state::State;
use unit::unit::blank;

// `state NAME n=N marks=M arrived=K sent=P,C checksum=X tally=H,F,O,R`. Where there is no unit the state is None, and all else is that
// of a blank one.
pub fn put_status<W: Write>(console: &Console, out: &mut W) -> io::Result<()> {
    let name = console.unit.map_or("None", |unit| state_name(unit.state));
    let unit = console.unit.unwrap_or_else(|| blank());
    let protection = unit.protection;
    write!(out, "state {name} ")?;
    put_window(protection.window, out)?;
    let (protected, clear) = (Next(protection.protected), Next(protection.clear));
    write!(out, " sent={protected},{clear}")?;
    put_tally(unit.sent.checksums[0], console.tally, out)?;
    writeln!(out)
}

fn state_name(state: State) -> &'static str {
    match state {
        State::Idle => "Idle",
        State::Sent => "Sent",
        State::Replied => "Replied",
        State::Spec => "Spec",
        State::Opening => "Opening",
        State::Open => "Open",
        State::Closed => "Closed",
        State::Barred => "Barred",
    }
}

// The next number, `-` where there is none: our hello and our Finished take number 0, so that it is never next.
#[derive(Clone, Copy)]
struct Next(u32);

impl fmt::Display for Next {
    fn fmt<W: fmt::Write>(&self, f: &mut fmt::Formatter<W>) -> fmt::Result {
        match self.0 {
            0 => write!(f, "-"),
            number => write!(f, "{number}"),
        }
    }
}
