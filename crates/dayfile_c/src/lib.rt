// What C and Rust link: the calls of `dayfile`, each under its own name. include/dayfile.h is the manual. A crate apart, since one that
// other crates use is no static library.
#![tactic(auto)]

ghost use Rattle.std.specs.Prelude.{◌≡◌, length, drop};
ghost use Rattle.dayfile.specs.Runs.{front_of};
ghost use Rattle.dayfile.specs.Writing.{write_lent, writing_told, left_by};
ghost use Rattle.dayfile.specs.Reading.{read_of, reading_told};
ghost use Rattle.dayfile.specs.Mending.{mend_of, mending_told, mend_left};
ghost use Rattle.dayfile.specs.Calls.{counted_result, found_result, mending_result};

// The file of a list, at the front of `out`: report i has numbers[i], and the next sizes[i] of the
// bytes. Answers how many bytes the file has. Refusals: 16, 24, 6.
#[unsafe(no_mangle)]
pub extern "C" fn dayfile_write(
    numbers: &[u16],
    sizes: &[usize],
    bytes: &[u8],
    out: &mut [u8],
) -> u64
    ensures exact { result ≡ counted_result (writing_told (write_lent numbers.now sizes.now bytes.now (length out.old))) }
    ensures bytes { out.new ≡ left_by out.old (write_lent numbers.now sizes.now bytes.now (length out.old)) }
{
    dayfile::dayfile_write(numbers, sizes, bytes, out)
}

// Whether bytes are the file of a list. Answers how many reports it has. Refusals: 24, 25.
#[unsafe(no_mangle)]
pub extern "C" fn dayfile_read(file: &[u8]) -> u64
    ensures exact { result ≡ counted_result (reading_told (read_of file.now)) }
{
    dayfile::dayfile_read(file)
}

// The whole report that begins at `at`: its number and its size, 0 where there is none. Its bytes
// stand behind the five of its head, and the next report behind them.
#[unsafe(no_mangle)]
pub extern "C" fn dayfile_report(file: &[u8], at: usize) -> u64
    ensures exact { result ≡ found_result (front_of (drop at file.now)) }
{
    dayfile::dayfile_report(file, at)
}

// The file of the longest run of whole reports from the front, at the front of `out`. Answers how
// many reports were kept, how many bytes stood after them, and whether the file changed. Refusals:
// 24, 6.
#[unsafe(no_mangle)]
pub extern "C" fn dayfile_mend(file: &[u8], out: &mut [u8]) -> u64
    ensures exact { result ≡ mending_result (mending_told (mend_of file.now (length out.old))) }
    ensures bytes { out.new ≡ mend_left out.old (mend_of file.now (length out.old)) }
{
    dayfile::dayfile_mend(file, out)
}
