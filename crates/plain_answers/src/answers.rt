// Answers as the numbers of docs/RULES.md, "Which number comes back".
ghost use Rattle.std.specs.Prelude.{◌≡◌, Err};
ghost use Rattle.refusal_rules.specs.Code.{code_of};
ghost use Rattle.plain_answers.specs.Stateless.{stateless};

use refusal_rules::answer::{Answer, Refusal, Sizes};
use refusals::check;
use silk::structs::Settings;

// The number of an answer: C is handed it.
pub fn number(a: Answer) -> u32
    ensures { result ≡ code_of a }
{
    match a {
        Ok(()) => 0,
        Err(why) => why.number(),
    }
}

// Why a call is refused whose state has a row of another length: as one with no words in its rows.
pub fn stateless(s: Settings, gains: &[i32], lags: &[i32]) -> Refusal
    ensures { Err result ≡ stateless s }
{
    let z = Sizes {
        samples: 0,
        pred_coef: 0,
        ltp_coef: 0,
        ar: 0,
        harm_gain: 0,
        tilt: 0,
        lf: 0,
        pulses: 0,
    };
    check::check(s, z, 0, 1, gains, lags).unwrap_err()
}

// Its number, for C.
pub fn stateless_number(s: Settings, gains: &[i32], lags: &[i32]) -> u32
    ensures { result ≡ code_of (stateless s) }
{
    stateless(s, gains, lags).number()
}
