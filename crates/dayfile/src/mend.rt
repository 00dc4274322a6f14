// Mending a cut file: the longest run of whole reports from the front, with a new trailer.
ghost use Rattle.std.specs.Prelude.{◌≡◌, length};
ghost use Rattle.dayfile.specs.Mending.{mend_of, mending_told, mend_left};

use crate::refusal::Refusal;
use crate::run::{MOST_BYTES, run_in};
use crate::trailer::{put_trailer, trailer_stands};
use digest::put;

// How many reports were kept, how many bytes stood after them, and whether the file changed.
#[derive(Clone, Copy, PartialEq, Eq, Debug)]
pub struct Mended {
    pub kept: usize,
    pub after: usize,
    pub changed: bool,
}

// The mended file, at the front of `out`. Refusals: 24, 6.
pub fn mend_file(file: &[u8], out: &mut [u8]) -> Result<Mended, Refusal>
    ensures exact { result ≡ mending_told (mend_of file.now (length out.old)) }
    ensures bytes { out.new ≡ mend_left out.old (mend_of file.now (length out.old)) }
{
    if MOST_BYTES < file.len() {
        return Err(Refusal::Limit);
    }
    let run = run_in(file);
    let size = run.file_size().ok_or(Refusal::Limit)?;
    if out.len() < size {
        return Err(Refusal::Room);
    }
    let sound = trailer_stands(file, run);
    put(out, 0, &file[..run.end]);
    put_trailer(out, run);
    Ok(Mended {
        kept: run.count,
        after: file.len() - run.end,
        changed: !sound,
    })
}
