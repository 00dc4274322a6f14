// What the programs write: text is gathered in memory of a fixed size, and written out when it is full and at each flush. A write
// that fails is passed over: what it was given is lost, and the next one is tried again.
ghost use Rattle.std.specs.Prelude.{◌≡◌, ◌++◌, ◌+◌, ◌≤◌, ◌<◌, OnOk, IsOk, Ok, None, length, take, [], false};
ghost use Rattle.std.specs.Io.{WritesAtMost};
ghost use Rattle.std.specs.Io.KnownBytes.{Appends, Keeps, WriteAppends, append_known};
ghost use Rattle.arrayvec.specs.ArrayVec.{array_vec_len};

use arrayvec::ArrayVec;
use std::io;
use std::io::Write;

// The most bytes that are gathered.
const TEXT: usize = 4096;

#[derive(Drop)]
pub struct Output<W> {
    to: W,
    text: ArrayVec<u8, TEXT>,
    has_lost: bool,
}

impl<W: Write> Output<W> {
    // Nothing gathered yet.
    pub fn new(to: W) -> Output<W>
        ensures to { result.to ≡ to }
        ensures text { result.text.items ≡ [] }
        ensures has_lost { result.has_lost ≡ false }
    {
        Output {
            to,
            text: ArrayVec::new(),
            has_lost: false,
        }
    }

    // Whether a write has failed, so that text was lost.
    pub fn has_lost(&self) -> bool
        ensures { result ≡ self.now.has_lost }
    {
        self.has_lost
    }

    // Writes out what is gathered, and gathers anew.
    fn write_out(&mut self)
        ensures written { self.new.has_lost ≡ false →
            Appends (W.contents self.old.to) (W.contents self.new.to) self.old.text.items }
        ensures noted { self.new.has_lost ≡ false → self.old.has_lost ≡ false }
        ensures text { self.new.text.items ≡ [] }
    {
        if self.to.write_all(&self.text).is_err() {
            self.has_lost = true;
        }
        self.text.clear();
    }

    // Writes out what is gathered where there is no room for more.
    fn make_room(&mut self)
        ensures room { array_vec_len self.new.text < TEXT }
        ensures noted { self.new.has_lost ≡ false → self.old.has_lost ≡ false }
        ensures kept { self.new.has_lost ≡ false →
            Appends (append_known (W.contents self.old.to) self.old.text.items)
            (append_known (W.contents self.new.to) self.new.text.items) [] }
    {
        if self.text.is_full() {
            self.write_out();
        }
    }

    // Gathers as much as there is room for, and answers how much.
    fn gather(&mut self, bytes: &[u8]) -> usize
        ensures bound { result ≤ length bytes.now }
        ensures some { 0 < length bytes.now → 0 < result }
        ensures noted { self.new.has_lost ≡ false → self.old.has_lost ≡ false }
        ensures appended { self.new.has_lost ≡ false →
            Appends (append_known (W.contents self.old.to) self.old.text.items)
            (append_known (W.contents self.new.to) self.new.text.items) (take result bytes.now) }
    {
        self.make_room();
        let n = self.text.remaining_capacity().min(bytes.len());
        let Ok(()) = self.text.try_extend_from_slice(&bytes[..n]) else {
            unreachable!()
        };
        n
    }

    // Gathers more than there is room for.
    #[cold]
    fn gather_parts(&mut self, bytes: &[u8])
        ensures noted { self.new.has_lost ≡ false → self.old.has_lost ≡ false }
        ensures appended { self.new.has_lost ≡ false →
            Appends (append_known (W.contents self.old.to) self.old.text.items)
            (append_known (W.contents self.new.to) self.new.text.items) bytes.now }
    {
        let mut done = 0;
        while done < bytes.len() {
            done += self.gather(&bytes[done..]);
        }
    }
}

impl<W: Write> Write for Output<W> {
    fn write(&mut self, buf: &[u8]) -> io::Result<usize>
        ensures bound { WritesAtMost result buf.now }
        ensures bytes { WriteAppends None None result buf.now }
        ensures count { result ≡ Ok (length buf.now) }
        ensures noted { self.new.has_lost ≡ false → self.old.has_lost ≡ false }
        ensures appended { self.new.has_lost ≡ false →
            Appends (append_known (W.contents self.old.to) self.old.text.items)
            (append_known (W.contents self.new.to) self.new.text.items) buf.now }
    {
        if self.text.try_extend_from_slice(buf).is_err() {
            self.gather_parts(buf);
        }
        Ok(buf.len())
    }

    fn flush(&mut self) -> io::Result<()>
        ensures bytes { Keeps None None }
        ensures ok { IsOk result }
        ensures text { self.new.text.items ≡ [] }
        ensures noted { self.new.has_lost ≡ false → self.old.has_lost ≡ false }
        ensures written { self.new.has_lost ≡ false →
            Appends (W.contents self.old.to) (W.contents self.new.to) self.old.text.items }
    {
        self.write_out();
        Ok(())
    }

    fn write_all(&mut self, buf: &[u8]) -> io::Result<()>
        ensures bytes { OnOk result (Appends None None buf.now) }
        ensures ok { IsOk result }
        ensures noted { self.new.has_lost ≡ false → self.old.has_lost ≡ false }
        ensures appended { self.new.has_lost ≡ false →
            Appends (append_known (W.contents self.old.to) self.old.text.items)
            (append_known (W.contents self.new.to) self.new.text.items) buf.now }
    {
        let _ = self.write(buf);
        Ok(())
    }
}
