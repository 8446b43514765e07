// Notes from WAV files: the two steps of reading one.
ghost use Rattle.std.specs.Prelude.{◌≡◌};
ghost use Rattle.wav_file.specs.Find.{found_by, found};
ghost use Rattle.wav_file.specs.Fill.{filled, filling};

use wav_file::{find, samples};

// Writes the place, the length and the rate of the file's samples and returns 0; or writes three zeros and returns the number of the refusal.
#[unsafe(no_mangle)]
pub extern "C" fn nsq_wav_find(
    file: &[u8],
    start: &mut u32,
    length: &mut u32,
    rate: &mut u32,
) -> u32
    ensures { found_by result start.new length.new rate.new ≡ found file.now }
{
    match find::find(file) {
        Ok(f) => {
            *start = f.start as u32;
            *length = f.length as u32;
            *rate = f.rate;
            0
        }
        Err(refusal) => {
            *start = 0;
            *length = 0;
            *rate = 0;
            refusal.number()
        }
    }
}

// Writes the samples of such a part and returns 0; or returns 8, and leaves the row, where the part isn't twice as long as the row.
#[unsafe(no_mangle)]
pub extern "C" fn nsq_wav_samples(part: &[u8], row: &mut [i16]) -> u32
    ensures { filled result row.new ≡ filling part.now row.old }
{
    match samples::fill(part, row) {
        Ok(()) => 0,
        Err(refusal) => refusal.number(),
    }
}
