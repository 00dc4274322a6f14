// The run of whole reports from the front.
ghost use Rattle.std.specs.Prelude.{List, ◌≡◌, take};
ghost use Rattle.dayfile.specs.File.{Report, body_of};
ghost use Rattle.dayfile.specs.Runs.{run_of, counted, size_within};

use crate::report::{HEAD, report_at};

// How many reports a list may have, and how many bytes its file, the trailer included.
pub(crate) const MOST_REPORTS: usize = 4096;

pub(crate) const MOST_BYTES: usize = 65536;

// How many reports the run has, and where it ends.
#[derive(Clone, Copy, PartialEq, Eq, Debug)]
pub struct Run {
    pub count: usize,
    pub end: usize,
}

impl Run {
    // How many bytes the file of these reports has, the trailer included, where it is within the limits.
    pub(crate) fn file_size(self) -> Option<usize>
        ensures { (l : List Report) → self ≡ counted l → result ≡ size_within l }
    {
        if MOST_REPORTS < self.count {
            return None;
        }
        let size = self.end.checked_add(3 + 2 * self.count)?;
        (size <= MOST_BYTES).then_some(size)
    }
}

// Each report is looked at once, and the run is what stands before its end.
pub(crate) fn run_in(file: &[u8]) -> Run
    ensures exact { result ≡ counted (run_of file.now) }
    ensures stands { body_of (run_of file.now) ≡ take result.end file.now }
{
    let mut run = Run { count: 0, end: 0 };
    while let Some(found) = report_at(file, run.end) {
        run.count += 1;
        run.end += HEAD + found.size;
    }
    run
}
