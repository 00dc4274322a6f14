// The state line.
use connection::connection::{Connection, alone};
use connection::handshake::{Handshake, blank};
use connection::state::State;
use connection::tally::Tally;
use gather::Gatherer;
use record::protection::Protection;
use record::window::Window;
use shortlines::parts::put_parts;
use std::io::Write;
use std::{fmt, io};

// `state NAME n=N marks=M arrived=K sent=P,C checksum=X tally=H,F,O,R parts=REF:HAVE/TOTAL,..
// started=-|Replied,P,C|Spec,P,C,N,M`. Where there is no connection the state is None, and all else is that of a blank one.
pub fn put_status<W: Write>(
    connection: Option<Connection>,
    tally: Tally,
    gatherer: Gatherer,
    out: &mut W,
) -> io::Result<()> {
    let name = connection.map_or("None", |c| state_name(c.handshake.state));
    let c = connection.unwrap_or_else(|| alone(blank()));
    let protection = c.handshake.protection;
    write!(out, "state {name} ")?;
    put_window(protection.window, out)?;
    write!(out, " sent={}", Numbers(protection))?;
    put_tally(c.sent.checksums[0], tally, out)?;
    put_parts(gatherer, out)?;
    put_started(c, out)?;
    writeln!(out)
}

pub fn state_name(state: State) -> &'static str {
    match state {
        State::Idle => "Idle",
        State::Replied => "Replied",
        State::Spec => "Spec",
        State::Open => "Open",
        State::Closed => "Closed",
        State::Barred => "Barred",
    }
}

// The highest number accepted, the marks of the newest, the least significant bit first, and how many of them have arrived.
pub fn put_window<W: Write>(window: Window, out: &mut W) -> io::Result<()> {
    let arrived = window.arrival();
    write!(
        out,
        "n={} marks={:016x} arrived={arrived}",
        Highest(window),
        window.marks
    )
}

// The newest checksum of the records sent, zeros where there is none; and the answers handed out, forged, too old, repeated.
pub fn put_tally<W: Write>(checksum: u32, tally: Tally, out: &mut W) -> io::Result<()> {
    write!(out, " checksum={checksum:08x}")?;
    write!(
        out,
        " tally={},{},{},{}",
        tally.handed, tally.forged, tally.old, tally.repeated
    )
}

// The handshake that is started beside an open one: its state, its next numbers, and in Spec its window.
fn put_started<W: Write>(c: Connection, out: &mut W) -> io::Result<()> {
    let Handshake {
        state,
        protection,
        ..
    } = c.started;
    match (c.handshake.state, state) {
        (State::Open, State::Replied) => write!(out, " started=Replied,{}", Numbers(protection)),
        (State::Open, State::Spec) => {
            let window = protection.window;
            write!(out, " started=Spec,{}", Numbers(protection))?;
            write!(out, ",{},{:016x}", Highest(window), window.marks)
        }
        _ => write!(out, " started=-"),
    }
}

// The next protected and clear numbers, `-,-` before the first reply, which takes number 0 of each.
#[derive(Clone, Copy)]
struct Numbers(Protection);

impl fmt::Display for Numbers {
    fn fmt<W: fmt::Write>(&self, f: &mut fmt::Formatter<W>) -> fmt::Result {
        let p = self.0;
        match p.protected {
            0 => write!(f, "-,-"),
            protected => write!(f, "{protected},{}", p.clear),
        }
    }
}

// The highest number accepted, `-` in a fresh window, which has no mark.
#[derive(Clone, Copy)]
struct Highest(Window);

impl fmt::Display for Highest {
    fn fmt<W: fmt::Write>(&self, f: &mut fmt::Formatter<W>) -> fmt::Result {
        let window = self.0;
        match window.marks {
            0 => write!(f, "-"),
            _ => write!(f, "{}", window.highest),
        }
    }
}
