// What goes with every reason of a record: the state, the record's kind and its place.
use calllines::status::state_name;
use connection::state::State;
use record::header::Content;
use std::io;
use std::io::Write;
use why::Why;

pub(crate) fn put_point<W: Write>(w: Why, out: &mut W) -> io::Result<()> {
    write!(
        out,
        " state {}{}",
        state_name(w.state),
        beside(w.state, w.started)
    )?;
    write!(out, " kind {} place {}", kind(w), w.place)
}

// The handshake that is started beside an open one.
fn beside(state: State, started: State) -> &'static str {
    match (state, started) {
        (State::Open, State::Replied) => "+Replied",
        (State::Open, State::Spec) => "+Spec",
        _ => "",
    }
}

fn kind(w: Why) -> &'static str {
    match (w.hello, w.protected, w.content) {
        (true, _, _) => "clear-hello",
        (_, false, Content::ChangeCipherSpec) => "clear-ccs",
        (_, false, Content::Alert) => "clear-alert",
        (_, false, Content::Handshake) => "clear-handshake",
        (_, false, Content::Data) => "clear-data",
        (_, true, Content::ChangeCipherSpec) => "protected-ccs",
        (_, true, Content::Alert) => "protected-alert",
        (_, true, Content::Handshake) => "protected-handshake",
        (_, true, Content::Data) => "protected-data",
    }
}
