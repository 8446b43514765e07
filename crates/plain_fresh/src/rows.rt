// The state before the first frame, as two rows.
ghost use Rattle.std.specs.Prelude.{◌≡◌};
ghost use Rattle.refusal_rules.specs.Code.{code_of};
ghost use Rattle.plain_fresh.specs.Fresh.{freshly_of, freshened};

use plain_rows::layout;
use refusal_rules::answer::{Answer, Refusal};
use silk::structs::NsqState;

// Makes the two rows a fresh state; or refuses, and leaves both, where one has another length.
pub fn fresh_rows(samples: &mut [i16], words: &mut [i32]) -> Answer
    ensures { freshly_of (code_of result) samples.new words.new ≡ freshened samples.old words.old }
{
    if samples.len() != 640 || words.len() != 767 {
        return Err(Refusal::Rows);
    }
    let state = NsqState::fresh();
    layout::lay_samples(state.xq, samples);
    layout::lay_words(state, words);
    Ok(())
}
