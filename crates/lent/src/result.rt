// What a call answers: the refusal's number (0: not refused), how many bytes stand at the front of the output, and a
// count, as one number.
ghost use Rattle.std.specs.Prelude.{◌≡◌};
ghost use Rattle.lent.specs.Calls.{result_of, not_taken};

pub fn result_of(refusal: u8, written: usize, count: usize) -> u64
    ensures exact { result ≡ result_of refusal written count }
{
    let high = refusal as u64 * 65536 + (written % 65536) as u64;
    high * 65536 + (count % 65536) as u64
}

// 16: what is lent is out of range.
pub fn not_taken() -> u64
    ensures { result ≡ not_taken }
{
    result_of(16, 0, 0)
}
