// A run of lines, from input that comes in chunks.
ghost use Rattle.std.specs.Prelude.{◌≡◌, ◌++◌, ◌≤◌, OnOk, codes, take, []};
ghost use Rattle.std.specs.Io.KnownBytes.{Appends, IsAtEnd};

use arrayvec::ArrayVec;
use std::io;
use std::io::{Read, Write};

// The most bytes that a line may have.
const LINE: usize = 8192;

// One byte more than a line may have, so that a longer line is seen to be one.
const HELD: usize = 8193;

const NEWLINE: u8 = b'\n';

// What lines drive.
pub trait Driven {
    // Runs a line, without its newline, and writes what it gave.
    fn run<W: Write>(&mut self, line: &[u8], out: &mut W) -> io::Result<()>;
}

// A line that is no call.
pub fn bad_line<W: Write>(out: &mut W) -> io::Result<()>
    ensures { OnOk result (Appends (W.contents out.old) (W.contents out.new) (codes "bad line\n")) }
{
    out.write_all(b"bad line\n")
}

// Runs the lines of the input as it comes, to its end, and writes out what they gave before each read. A proved loop has to end,
// and nothing says that the input does: the turns are counted, up to a number that no run uses up.
pub fn run_lines<D: Driven, R: Read, W: Write>(
    driven: &mut D,
    input: &mut R,
    out: &mut W,
) -> io::Result<()>
    ensures { OnOk result (IsAtEnd (R.remaining input.new)) }
{
    let mut chunk = [0u8; 65536];
    let mut held = ArrayVec::new();
    for _ in 0..u64::MAX {
        let n = input.read(&mut chunk)?;
        if n == 0 {
            return end(driven, &mut held, out);
        }
        feed(driven, &chunk[..n], &mut held, out)?;
        out.flush()?;
    }
    Err(io::Error::other("too much input"))
}

// Runs each line that ends in the chunk, and holds what is left.
fn feed<D: Driven, W: Write>(
    driven: &mut D,
    chunk: &[u8],
    held: &mut ArrayVec<u8, HELD>,
    out: &mut W,
) -> io::Result<()> {
    for part in chunk.split_inclusive(|b| *b == NEWLINE) {
        match part {
            [line @ .., NEWLINE] => {
                hold(held, line);
                run_held(driven, held, out)?;
            }
            _ => hold(held, part),
        }
    }
    Ok(())
}

// At the end of the input: the last line may lack its newline.
fn end<D: Driven, W: Write>(
    driven: &mut D,
    held: &mut ArrayVec<u8, HELD>,
    out: &mut W,
) -> io::Result<()> {
    if !held.is_empty() {
        run_held(driven, held, out)?;
    }
    out.flush()
}

// Holds more of a line, as far as there is room.
fn hold(held: &mut ArrayVec<u8, HELD>, part: &[u8])
    ensures { held.new.items ≡ take HELD (held.old.items ++ part.now) }
{
    let n = held.remaining_capacity().min(part.len());
    let Ok(()) = held.try_extend_from_slice(&part[..n]) else {
        unreachable!()
    };
}

// Runs the line that is held.
fn run_held<D: Driven, W: Write>(
    driven: &mut D,
    held: &mut ArrayVec<u8, HELD>,
    out: &mut W,
) -> io::Result<()>
    ensures { OnOk result (held.new.items ≡ []) }
{
    let line = held.as_slice();
    if LINE < line.len() {
        bad_line(out)?;
    } else {
        driven.run(line, out)?;
    }
    held.clear();
    Ok(())
}
