// The trailer behind a run of whole reports: an opening byte D2, for each report its distance back
// from there, and the count.
ghost use Rattle.std.specs.Prelude.{◌≡◌, ◌++◌, ◌+◌, ◌*◌, ◌≤◌, ◌<◌, length, take, MatchOption};
ghost use Rattle.digest.specs.Bytes.{bytes2, laid_over};
ghost use Rattle.digest.specs.Mac.{same_bytes};
ghost use Rattle.dayfile.specs.File.{body_of, distances_of, file_of, trailer_of};
ghost use Rattle.dayfile.specs.Runs.{pair_at, run_of, RunStands};

use crate::report::HEAD;
use crate::run::Run;
use digest::put;

// The byte that opens the trailer.
const TRAILER: u8 = 0xD2;

// Whether the trailer of the run, and nothing else, stands behind it.
pub(crate) fn trailer_stands(file: &[u8], run: Run) -> bool
    requires run_stands { RunStands file.now run }
    requires file_len_bound { length file.now ≤ 65536 }
    ensures { result ≡ same_bytes file.now (file_of (run_of file.now)) }
{
    let (body, trailer) = file.split_at(run.end);
    let [TRAILER, numbers @ ..] = trailer else {
        return false;
    };
    // the length alone tells most of what is no file, before the reports are walked again
    if numbers.len() != 2 + 2 * run.count {
        return false;
    }
    numbers_stand(numbers, body, run.count)
}

// Whether the numbers are those of the trailer behind `body`, which is nothing but reports: the
// distances, and then the count. A report is as far from the trailer as what begins with it is long.
fn numbers_stand(numbers: &[u8], body: &[u8], count: usize) -> bool
    requires reports { body_of (run_of body.now) ≡ body.now }
    requires body_len_bound { length body.now < 65536 }
    requires count_bound { count < 65536 }
    ensures { result ≡ same_bytes numbers.now (distances_of (run_of body.now) ++ bytes2 count) }
{
    let mut left = body;
    let mut rest = numbers;
    while let Some(next) = next_in(left) {
        let Some((distance, behind)) = rest.split_first_chunk() else {
            return false;
        };
        if usize::from(u16::from_be_bytes(*distance)) != left.len() {
            return false;
        }
        left = &left[next..];
        rest = behind;
    }
    let [c0, c1] = rest else {
        return false;
    };
    usize::from(u16::from_be_bytes([*c0, *c1])) == count
}

// Where the next of the reports begins: the head of the first tells its size, and they are whole.
fn next_in(reports: &[u8]) -> Option<usize>
    ensures { MatchOption result (length reports.now < 5) (λ next. (5 ≤ length reports.now) × (next ≡ 5 + pair_at reports.now 3)) }
{
    let [_, _, _, s0, s1, ..] = reports else {
        return None;
    };
    Some(HEAD + usize::from(u16::from_be_bytes([*s0, *s1])))
}

// Puts the trailer behind the run, which stands in front of its place.
pub(crate) fn put_trailer(out: &mut [u8], run: Run)
    requires run_stands { RunStands (take run.end out.old) run }
    requires count_in_bounds { run.end + (3 + 2 * run.count) ≤ length out.old }
    requires end_bound { run.end < 65536 }
    ensures { out.new ≡ laid_over out.old run.end (trailer_of (run_of (take run.end out.old))) }
{
    let (body, trailer) = out.split_at_mut(run.end);
    put_at_front(trailer, body, run.count);
}

// Puts the trailer of `body`, which is nothing but `count` reports, at the front of `out`.
fn put_at_front(out: &mut [u8], body: &[u8], count: usize)
    requires reports { body_of (run_of body.now) ≡ body.now }
    requires counted { count ≡ length (run_of body.now) }
    requires body_len_bound { length body.now < 65536 }
    requires count_in_bounds { 3 + 2 * count ≤ length out.old }
    ensures { out.new ≡ laid_over out.old 0 (trailer_of (run_of body.now)) }
{
    put(out, 0, &[TRAILER]);
    let mut place = 1;
    let mut left = body;
    while let Some(next) = next_in(left) {
        put(out, place, &(left.len() as u16).to_be_bytes());
        place += 2;
        left = &left[next..];
    }
    put(out, place, &(count as u16).to_be_bytes());
}
