// A call on plain rows: what both of its functions do.
ghost use Rattle.std.specs.Prelude.{◌≡◌, pos};
ghost use Rattle.refusal_rules.specs.Code.{code_of};
ghost use Rattle.plain_laid.specs.Laid.{answer_of, report_of, left_of};
ghost use Rattle.nsq_c.specs.Rows.{called as called_z, call_lent};
ghost use Rattle.nsq_c.specs.Report.{short_number, report_in};

use nsq::entry;
use plain_answers::answers;
use plain_laid::laying;
use plain_rows::layout;
use refusal_rules::answer::Refusal;
use settings_row::named;

// The number of a call with a row of another length: C is handed it.
pub fn short_number(settings: &[i32], gains: &[i32], lags: &[i32]) -> u32
    ensures { result ≡ short_number settings.now }
{
    if settings.len() != 12 {
        return Refusal::Rows.number();
    }
    answers::stateless_number(named::settings_of(settings), gains, lags)
}

// The call, and its report: at how many places the pulses differ from those that the final winner chose itself. Accepted, its pulses, its
// seed and the next state stand in the rows; refused, no row is touched. The rows are parameters of their own, as C lends them to its two callers.
pub fn called(
    settings: &mut [i32],
    samples: &mut [i16],
    words: &mut [i32],
    x: &[i16],
    pulses: &mut [i8],
    pred: &[i16],
    long: &[i16],
    ar: &[i16],
    harm: &[i32],
    tilt: &[i32],
    lf: &[i32],
    gains: &[i32],
    lags: &[i32],
) -> Result<i32, Refusal>
    ensures rows { left_of (code_of (answer_of result)) settings.new samples.new words.new pulses.new
        ≡ called_z settings.old samples.old words.old
        (call_lent settings.old samples.old words.old pred.now long.now ar.now harm.now tilt.now lf.now gains.now lags.now)
        x.now pulses.old }
    ensures report { report_of result ≡ pos (report_in settings.old samples.old words.old
        (call_lent settings.old samples.old words.old pred.now long.now ar.now harm.now tilt.now lf.now gains.now lags.now)
        x.now pulses.old) }
{
    if settings.len() != 12 {
        return Err(Refusal::Rows);
    }
    let s = named::settings_of(settings);
    if samples.len() != 640 || words.len() != 767 {
        return Err(answers::stateless(s, gains, lags));
    }
    let state = layout::state_of(samples, words);
    let a = entry::silk_NSQ_del_dec(
        s, state, x, pulses, pred, long, ar, harm, tilt, lf, gains, lags,
    );
    laying::lay(a, settings, samples, words)
}
