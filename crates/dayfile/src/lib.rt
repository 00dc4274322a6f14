// The day's list as a file (02 P9) and its mending (02 P10), for Rattle and, by the calls of this page, which `dayfile_c` exports
// under their names, for C and Rust. There is no heap; everything is lent. No call has a `requires`: what is lent is tested. A
// refused call leaves every lent byte as it was. Each answers one number, since C takes no Result.
#![tactic(auto)]

ghost use Rattle.std.specs.Prelude.{◌≡◌, ◌+◌, ◌*◌, ◌≤◌, length, drop};
ghost use Rattle.dayfile.specs.Runs.{front_of};
ghost use Rattle.dayfile.specs.Writing.{write_lent, writing_told, left_by};
ghost use Rattle.dayfile.specs.Reading.{read_of, reading_told};
ghost use Rattle.dayfile.specs.Mending.{mend_of, mending_told, mend_left};
ghost use Rattle.dayfile.specs.Calls.{refused_result, counted_result, found_result};
ghost use Rattle.dayfile.specs.Calls.{mended_result, mending_result};

pub mod mend;
pub mod read;
pub mod refusal;
pub mod report;
pub mod run;
mod trailer;
pub mod write;

use mend::{Mended, mend_file};
use read::read_file;
use refusal::Refusal;
use report::{Found, report_at};
use write::write_file;

// The file of a list, at the front of `out`: report i has numbers[i], and the next sizes[i] of the
// bytes. Answers how many bytes the file has. Refusals: 16, 24, 6.
pub fn dayfile_write(numbers: &[u16], sizes: &[usize], bytes: &[u8], out: &mut [u8]) -> u64
    ensures exact { result ≡ counted_result (writing_told (write_lent numbers.now sizes.now bytes.now (length out.old))) }
    ensures bytes { out.new ≡ left_by out.old (write_lent numbers.now sizes.now bytes.now (length out.old)) }
{
    counted(write_file(numbers, sizes, bytes, out))
}

// Whether bytes are the file of a list. Answers how many reports it has. Refusals: 24, 25.
pub fn dayfile_read(file: &[u8]) -> u64
    ensures exact { result ≡ counted_result (reading_told (read_of file.now)) }
{
    counted(read_file(file))
}

// The whole report that begins at `at`: its number and its size, 0 where there is none. Its bytes
// stand behind the five of its head, and the next report behind them.
pub fn dayfile_report(file: &[u8], at: usize) -> u64
    ensures exact { result ≡ found_result (front_of (drop at file.now)) }
{
    match report_at(file, at) {
        Some(found) => told(found),
        None => 0,
    }
}

// The file of the longest run of whole reports from the front, at the front of `out`. Answers how
// many reports were kept, how many bytes stood after them, and whether the file changed. Refusals:
// 24, 6.
pub fn dayfile_mend(file: &[u8], out: &mut [u8]) -> u64
    ensures exact { result ≡ mending_result (mending_told (mend_of file.now (length out.old))) }
    ensures bytes { out.new ≡ mend_left out.old (mend_of file.now (length out.old)) }
{
    match mend_file(file, out) {
        Ok(said) => mended(said),
        Err(refusal) => refused(refusal),
    }
}

fn counted(outcome: Result<usize, Refusal>) -> u64
    ensures { result ≡ counted_result outcome }
{
    match outcome {
        Ok(count) => count as u64,
        Err(refusal) => refused(refusal),
    }
}

fn mended(said: Mended) -> u64
    requires { (said.kept ≤ 4096) × (said.after ≤ 65536) }
    ensures { result ≡ mended_result said }
{
    u64::from(said.changed) * 2147483648 + (said.kept as u64) * 131072 + (said.after as u64)
}

fn refused(refusal: Refusal) -> u64
    ensures { result ≡ refused_result refusal }
{
    u64::from(u8::from(refusal)) * 4294967296
}

fn told(found: Found) -> u64
    requires { found.size ≤ 1400 }
    ensures { result ≡ found.number * 65536 + found.size }
{
    u64::from(found.number) * 65536 + (found.size as u64)
}
