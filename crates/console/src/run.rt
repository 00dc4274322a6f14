// Running the call that a line makes. Its words were read when the call was told (`call_of`), so that each says what it should.
use crate::console::Console;
use crate::{gathering, outcome};
use callwords::call::{Call, call_in, call_of};
use connection::calls;
use connection::calls::Called;
use connection::connection::Connection;
use connection::receive::receive;
use connection::send::{Sent, send_alert, send_data};
use lines::hex::bytes;
use lines::number::{number, room};
use lines::run::{Driven, bad_line};
use lines::said::named;
use lines::words::word;
use std::io;
use std::io::Write;

// The most bytes of room that a line may lend a part of.
pub const ROOM: usize = 2048;

impl Driven for Console {
    fn run<W: Write>(&mut self, line: &[u8], out: &mut W) -> io::Result<()> {
        match (
            call_in(self.connection.is_some(), call_of(line)),
            self.connection,
        ) {
            (Some(Call::Fresh), _) => self.fresh(line, out),
            (Some(Call::Mac), _) => {
                tablelines::mac::put_asked(line, out)?;
                outcome::state_line(self, out)
            }
            (Some(Call::Set), _) => {
                tablelines::set::put_asked(line, out)?;
                outcome::state_line(self, out)
            }
            (Some(call), Some(connection)) => self.run_on(connection, call, line, out),
            (None, Some(connection)) => gathering::run(self, connection, line, out),
            (_, None) => bad_line(out),
        }
    }
}

impl Console {
    // A call on the connection.
    fn run_on<W: Write>(
        &mut self,
        connection: Connection,
        call: Call,
        line: &[u8],
        out: &mut W,
    ) -> io::Result<()> {
        match call {
            Call::Receive => self.receive(connection, line, out),
            Call::Send => self.send(connection, line, out),
            Call::Alert => self.alert(connection, line, out),
            Call::Close => self.called("close", calls::close(connection), out),
            Call::Start => self.called("start", calls::start(connection), out),
            Call::Why => {
                whylines::put_asked(connection, line, out)?;
                outcome::state_line(self, out)
            }
            Call::Fresh | Call::Mac | Call::Set => bad_line(out),
        }
    }

    // A refused fresh leaves connection and tally as they were.
    fn fresh<W: Write>(&mut self, line: &[u8], out: &mut W) -> io::Result<()> {
        let id = bytes(word(line, 1));
        let secret = bytes(word(line, 2));
        let width = number(word(line, 3), 999999999) as u32;
        let called = calls::fresh(&id, &secret, width);
        let outcome = called.outcome;
        if let Ok(()) = outcome {
            self.connect(called.connection);
        }
        outcome::done(self, "fresh", outcome, out)
    }

    // A call that takes no argument.
    fn called<W: Write>(&mut self, name: &str, called: Called, out: &mut W) -> io::Result<()> {
        self.connection = Some(called.connection);
        outcome::done(self, name, called.outcome, out)
    }

    fn receive<W: Write>(
        &mut self,
        connection: Connection,
        line: &[u8],
        out: &mut W,
    ) -> io::Result<()> {
        let datagram = bytes(word(line, 1));
        let random = bytes(word(line, 2));
        let mut lent = [0u8; ROOM];
        let size = room(word(line, 3), &lent);
        let received = receive(connection, &datagram, &random, &mut lent[..size]);
        self.count(received);
        outcome::taken(self, received, &lent, out)
    }

    fn send<W: Write>(
        &mut self,
        connection: Connection,
        line: &[u8],
        out: &mut W,
    ) -> io::Result<()> {
        let content = bytes(word(line, 1));
        let mut lent = [0u8; ROOM];
        let size = room(word(line, 2), &lent);
        let sent = send_data(connection, &content, &mut lent[..size]);
        self.sent("send", sent, &lent, out)
    }

    fn alert<W: Write>(
        &mut self,
        connection: Connection,
        line: &[u8],
        out: &mut W,
    ) -> io::Result<()> {
        let protected = named(line, 1, b"protected");
        let level = number(word(line, 2), 255) as u8;
        let description = number(word(line, 3), 255) as u8;
        let record = bytes(word(line, 4));
        let mut lent = [0u8; ROOM];
        let size = room(word(line, 5), &lent);
        let sent = send_alert(
            connection,
            protected,
            level,
            description,
            &record,
            &mut lent[..size],
        );
        self.sent("alert", sent, &lent, out)
    }

    // What a call that sends gave.
    fn sent<W: Write>(
        &mut self,
        name: &str,
        sent: Sent,
        lent: &[u8],
        out: &mut W,
    ) -> io::Result<()> {
        self.connection = Some(sent.connection);
        outcome::sent(self, name, sent.outcome, sent.written, lent, out)
    }
}
