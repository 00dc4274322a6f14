// Running the call that a line makes. Its words were read when the call was told (`call_of`), so that each says what it should.
use crate::call::{Call, call_of};
use crate::console::Console;
use crate::outcome;
use callwords::call::{NUMBER, ROOM};
use lines::hex::bytes;
use lines::number::{number, room};
use lines::run::{Driven, bad_line};
use lines::said::named;
use lines::words::word;
use std::io;
use std::io::Write;
use unit::calls;
use unit::calls::Called;
use unit::hello::{again, hello};
use unit::receive::receive;
use unit::send::{Sent, send_alert, send_data};
use unit::unit::Unit;

impl Driven for Console {
    // Any call but `fresh` needs a unit.
    fn run<W: Write>(&mut self, line: &[u8], out: &mut W) -> io::Result<()> {
        match (call_of(line), self.unit) {
            (Some(Call::Fresh), _) => self.fresh(line, out),
            (Some(call), Some(unit)) => self.run_on(unit, call, line, out),
            _ => bad_line(out),
        }
    }
}

impl Console {
    // A call on the unit.
    fn run_on<W: Write>(
        &mut self,
        unit: Unit,
        call: Call,
        line: &[u8],
        out: &mut W,
    ) -> io::Result<()> {
        match call {
            Call::Hello => self.hello(unit, line, out),
            Call::Again => self.again(unit, line, out),
            Call::Receive => self.receive(unit, line, out),
            Call::Send => self.send(unit, line, out),
            Call::Alert => self.alert(unit, line, out),
            Call::Close => self.called("close", calls::close(unit), out),
            Call::Start => self.called("start", calls::start(unit), out),
            Call::Fresh => bad_line(out),
        }
    }

    // A refused fresh leaves unit and tally as they were.
    fn fresh<W: Write>(&mut self, line: &[u8], out: &mut W) -> io::Result<()> {
        let id = bytes(word(line, 1));
        let secret = bytes(word(line, 2));
        let width = number(word(line, 3), NUMBER) as u32;
        let called = calls::fresh(&id, &secret, width);
        let outcome = called.outcome;
        if let Ok(()) = outcome {
            self.connect(called.unit);
        }
        outcome::done(self, "fresh", outcome, out)
    }

    // A call that takes no argument.
    fn called<W: Write>(&mut self, name: &str, called: Called, out: &mut W) -> io::Result<()> {
        self.unit = Some(called.unit);
        outcome::done(self, name, called.outcome, out)
    }

    fn hello<W: Write>(&mut self, unit: Unit, line: &[u8], out: &mut W) -> io::Result<()> {
        let random = bytes(word(line, 1));
        let macs = bytes(word(line, 2));
        let refresh = number(word(line, 3), NUMBER) as u32;
        let mut lent = [0u8; ROOM];
        let size = room(word(line, 4), &lent);
        let sent = hello(unit, &random, &macs, refresh, &mut lent[..size]);
        self.sent("hello", sent, &lent, out)
    }

    fn again<W: Write>(&mut self, unit: Unit, line: &[u8], out: &mut W) -> io::Result<()> {
        let mut lent = [0u8; ROOM];
        let size = room(word(line, 1), &lent);
        let sent = again(unit, &mut lent[..size]);
        self.sent("again", sent, &lent, out)
    }

    fn receive<W: Write>(&mut self, unit: Unit, line: &[u8], out: &mut W) -> io::Result<()> {
        let datagram = bytes(word(line, 1));
        let mut lent = [0u8; ROOM];
        let size = room(word(line, 2), &lent);
        let received = receive(unit, &datagram, &mut lent[..size]);
        self.count(received);
        outcome::taken(self, received, &lent, out)
    }

    fn send<W: Write>(&mut self, unit: Unit, line: &[u8], out: &mut W) -> io::Result<()> {
        let content = bytes(word(line, 1));
        let mut lent = [0u8; ROOM];
        let size = room(word(line, 2), &lent);
        let sent = send_data(unit, &content, &mut lent[..size]);
        self.sent("send", sent, &lent, out)
    }

    fn alert<W: Write>(&mut self, unit: Unit, line: &[u8], out: &mut W) -> io::Result<()> {
        let protected = named(line, 1, b"protected");
        let level = number(word(line, 2), 255) as u8;
        let description = number(word(line, 3), 255) as u8;
        let record = bytes(word(line, 4));
        let mut lent = [0u8; ROOM];
        let size = room(word(line, 5), &lent);
        let sent = send_alert(
            unit,
            protected,
            level,
            description,
            &record,
            &mut lent[..size],
        );
        self.sent("alert", sent, &lent, out)
    }

    // What a call that sends gave.
    fn sent<W: Write>(
        &mut self,
        name: &str,
        sent: Sent,
        lent: &[u8],
        out: &mut W,
    ) -> io::Result<()> {
        self.unit = Some(sent.unit);
        outcome::sent(self, name, sent.outcome, sent.written, lent, out)
    }
}
