// The samples of a part of a file.
ghost use Rattle.std.specs.Prelude.{◌≡◌, ◌+◌, ◌*◌, ◌≤◌, length};
ghost use Rattle.wav_file.specs.Fill.{sample_of, filled, filling};
ghost use Rattle.wav_file.specs.Numbers.{answer_number};

use crate::bytes;
use crate::refusal::NotTwice;
use fixed::wrap;

// Sample i.
fn sample(bytes: &[u8], i: usize) -> i16
    requires { 2 * i + 2 ≤ length bytes.now }
    ensures { result ≡ sample_of bytes.now i }
{
    wrap::low16(bytes::word16(bytes, 2 * i) as i32)
}

// The samples into the row, low byte first; refused where the part isn't twice as long as the row, which then stays as it was.
pub fn fill(bytes: &[u8], row: &mut [i16]) -> Result<(), NotTwice>
    ensures { filled (answer_number result) row.new ≡ filling bytes.now row.old }
{
    if bytes.len() % 2 != 0 || bytes.len() / 2 != row.len() {
        return Err(NotTwice);
    }
    for (i, place) in row.iter_mut().enumerate() {
        *place = sample(bytes, i);
    }
    Ok(())
}
