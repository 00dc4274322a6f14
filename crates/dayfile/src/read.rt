// Reading: whether bytes are the file of a list, and how many reports it has. Each of them is then
// told by `report_at`, the first at place 0, the next behind it. Work linear in the file.
ghost use Rattle.std.specs.Prelude.{◌≡◌};
ghost use Rattle.dayfile.specs.Reading.{read_of, reading_told};

use crate::refusal::Refusal;
use crate::run::{MOST_BYTES, MOST_REPORTS, run_in};
use crate::trailer::trailer_stands;

// Answers how many reports the list has. Refusals: 24, 25.
pub fn read_file(file: &[u8]) -> Result<usize, Refusal>
    ensures exact { result ≡ reading_told (read_of file.now) }
{
    if MOST_BYTES < file.len() {
        return Err(Refusal::Limit);
    }
    let run = run_in(file);
    if MOST_REPORTS < run.count || !trailer_stands(file, run) {
        return Err(Refusal::NoFile);
    }
    Ok(run.count)
}
