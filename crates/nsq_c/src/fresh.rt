// The state before the first frame, as two rows.
ghost use Rattle.std.specs.Prelude.{◌≡◌};
ghost use Rattle.plain_fresh.specs.Fresh.{freshly_of, freshened};

use plain_answers::answers;
use plain_fresh::rows;

// Makes the two rows a fresh state and returns 0; or returns 5, and leaves both, where one has another length.
#[unsafe(no_mangle)]
pub extern "C" fn nsq_fresh(samples: &mut [i16], words: &mut [i32]) -> u32
    ensures { freshly_of result samples.new words.new ≡ freshened samples.old words.old }
{
    answers::number(rows::fresh_rows(samples, words))
}
