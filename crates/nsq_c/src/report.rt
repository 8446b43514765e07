// One call, and its report.
ghost use Rattle.std.specs.Prelude.{◌≡◌};
ghost use Rattle.plain_laid.specs.Laid.{left_of};
ghost use Rattle.nsq_c.specs.Rows.{call_lent};
ghost use Rattle.nsq_c.specs.Report.{reported_of, reported};

use crate::calling;

// `nsq_del_dec`, with a row of one word for the report. Accepted: at how many places the pulses handed out differ from those that the final winner
// chose itself (it is proved that there is none: `report-0` of the crate `belongs`). Refused: no row is touched. A report row of another length is a
// row of another length.
#[unsafe(no_mangle)]
pub extern "C" fn nsq_del_dec_report(
    settings: &mut [i32],
    samples: &mut [i16],
    words: &mut [i32],
    x: &[i16],
    pulses: &mut [i8],
    pred: &[i16],
    long: &[i16],
    ar: &[i16],
    harm: &[i32],
    tilt: &[i32],
    lf: &[i32],
    gains: &[i32],
    lags: &[i32],
    report: &mut [i32],
) -> u32
    ensures { reported_of (left_of result settings.new samples.new words.new pulses.new) report.new
        ≡ reported settings.old samples.old words.old
        (call_lent settings.old samples.old words.old pred.now long.now ar.now harm.now tilt.now lf.now gains.now lags.now)
        x.now pulses.old report.old }
{
    if report.len() != 1 {
        return calling::short_number(settings, gains, lags);
    }
    let r = calling::called(
        settings, samples, words, x, pulses, pred, long, ar, harm, tilt, lf, gains, lags,
    );
    match r {
        Ok(count) => {
            report[0] = count;
            0
        }
        Err(why) => why.number(),
    }
}
