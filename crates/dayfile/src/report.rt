// One whole report at a place: an opening byte D1, number, length, and as many bytes.
ghost use Rattle.std.specs.Prelude.{◌≡◌, drop};
ghost use Rattle.dayfile.specs.File.{is_sized};
ghost use Rattle.dayfile.specs.Runs.{front_of, whole_if, Standing};

// The byte that opens a report.
pub(crate) const OPENING: u8 = 0xD1;

// How many bytes stand before those of the report.
pub(crate) const HEAD: usize = 5;

// The number of the report and how many bytes it has; they stand behind the five of its head.
#[derive(Clone, Copy, PartialEq, Eq, Debug)]
pub struct Found {
    pub number: u16,
    pub size: usize,
}

// The whole report that begins at `at`, if one does. What is found stands there byte for byte.
pub fn report_at(file: &[u8], at: usize) -> Option<Found>
    ensures exact { result ≡ front_of (drop at file.now) }
    ensures stands { Standing (drop at file.now) result }
{
    front(file.get(at..)?)
}

// The whole report at the front.
fn front(part: &[u8]) -> Option<Found>
    ensures exact { result ≡ front_of part.now }
    ensures stands { Standing part.now result }
{
    let [OPENING, n0, n1, s0, s1, left @ ..] = part else {
        return None;
    };
    let number = u16::from_be_bytes([*n0, *n1]);
    let size = u16::from_be_bytes([*s0, *s1]);
    whole_if(number, usize::from(size), left.len())
}

fn whole_if(number: u16, size: usize, left: usize) -> Option<Found>
    ensures { result ≡ whole_if number size left }
{
    if !is_sized(size) || left < size {
        return None;
    }
    Some(Found { number, size })
}

// Whether a report may have so many bytes.
pub(crate) fn is_sized(size: usize) -> bool
    ensures { result ≡ is_sized size }
{
    (1..=1400).contains(&size)
}
