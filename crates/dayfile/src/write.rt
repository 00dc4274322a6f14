// Writing: the file of a list that is lent as three slices, since C lends it so: the numbers of its
// reports, their sizes, and the bytes of all of them, one report's behind the other's.
ghost use Rattle.std.specs.Prelude.{true, ◌≡◌, ◌++◌, ◌+◌, ◌*◌, ◌≤◌, length};
ghost use Rattle.digest.specs.Bytes.{laid_over};
ghost use Rattle.dayfile.specs.File.{body_of, head_of};
ghost use Rattle.dayfile.specs.Lent.{list_of, are_sized};
ghost use Rattle.dayfile.specs.Writing.{write_lent, writing_told, left_by};

use crate::refusal::Refusal;
use crate::report::{HEAD, OPENING, is_sized};
use crate::run::Run;
use crate::trailer::put_trailer;
use digest::put;

// The file of the list, at the front of `out`. Answers how many bytes it has. Refusals: 16, 24, 6.
pub fn write_file(
    numbers: &[u16],
    sizes: &[usize],
    bytes: &[u8],
    out: &mut [u8],
) -> Result<usize, Refusal>
    ensures exact { result ≡ writing_told (write_lent numbers.now sizes.now bytes.now (length out.old)) }
    ensures bytes { out.new ≡ left_by out.old (write_lent numbers.now sizes.now bytes.now (length out.old)) }
{
    let count = sizes.len();
    if numbers.len() != count || !are_sized(sizes, bytes.len()) {
        return Err(Refusal::Argument);
    }
    let run = Run {
        count,
        end: bytes.len() + HEAD * count,
    };
    let size = run.file_size().ok_or(Refusal::Limit)?;
    if out.len() < size {
        return Err(Refusal::Room);
    }
    put_reports(numbers, sizes, bytes, out);
    put_trailer(out, run);
    Ok(size)
}

// Whether each size is 1 to 1,400, and all of them add up to `total`.
fn are_sized(sizes: &[usize], total: usize) -> bool
    ensures { result ≡ are_sized sizes.now total }
{
    let mut left = total;
    for size in sizes {
        if !is_sized(*size) || left < *size {
            return false;
        }
        left -= *size;
    }
    left == 0
}

// Puts the reports, one behind the other, at the front of `out`.
fn put_reports(numbers: &[u16], sizes: &[usize], bytes: &[u8], out: &mut [u8])
    requires numbers_len { (length numbers.now ≡ length sizes.now) × (are_sized sizes.now (length bytes.now) ≡ true) }
    requires sizes_in_bounds { length bytes.now + 5 * length sizes.now ≤ length out.old }
    ensures { out.new ≡ laid_over out.old 0 (body_of (list_of numbers.now sizes.now bytes.now)) }
{
    let mut at = 0;
    let mut left = bytes;
    for (number, size) in numbers.iter().zip(sizes) {
        let (report, behind) = left.split_at(*size);
        put_report(out, at, *number, report);
        at += HEAD + *size;
        left = behind;
    }
}

// One report at a place.
fn put_report(out: &mut [u8], at: usize, number: u16, bytes: &[u8])
    requires fits { at + (5 + length bytes.now) ≤ length out.old }
    requires sized { length bytes.now ≤ 1400 }
    ensures { out.new ≡ laid_over out.old at (head_of number (length bytes.now) ++ bytes.now) }
{
    let [n0, n1] = number.to_be_bytes();
    let [s0, s1] = (bytes.len() as u16).to_be_bytes();
    put(out, at, &[OPENING, n0, n1, s0, s1]);
    put(out, at + HEAD, bytes);
}
