// What comes of a call, laid into plain rows.
ghost use Rattle.std.specs.Prelude.{◌≡◌, List, length, ℤ};
ghost use Rattle.refusal_rules.specs.Code.{code_of};
ghost use Rattle.steps.specs.Entry.{handed, reported};
ghost use Rattle.plain_laid.specs.Laid.{answer_of, report_of, left_of, laid};

use plain_rows::layout;
use refusal_rules::answer::Refusal;
use steps::structs::{Coded, Refused};

// What an accepted call hands back stands in the rows, and its report is handed on; a refused one leaves them.
pub fn lay(
    a: Result<Coded, Refused>,
    settings: &mut [i32],
    samples: &mut [i16],
    words: &mut [i32],
) -> Result<i32, Refusal>
    requires { (length settings.old ≡ 12) × ((length samples.old ≡ 640) × (length words.old ≡ 767)) }
    ensures rows { (out : List ℤ) → left_of (code_of (answer_of result)) settings.new samples.new words.new out ≡ laid settings.old samples.old words.old (handed a out) }
    ensures report { report_of result ≡ reported a }
{
    match a {
        Ok(coded) => {
            settings[9] = coded.seed;
            layout::lay_samples(coded.state.xq, samples);
            layout::lay_words(coded.state, words);
            Ok(coded.report)
        }
        Err(refused) => Err(refused.why),
    }
}
