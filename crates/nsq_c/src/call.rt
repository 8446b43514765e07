// One call.
ghost use Rattle.std.specs.Prelude.{◌≡◌};
ghost use Rattle.nsq_c.specs.Rows.{called, call_lent};
ghost use Rattle.plain_laid.specs.Laid.{left_of};

use crate::calling;

// `silk_NSQ_del_dec_c` on plain rows. Returns a number of docs/RULES.md. Accepted, which is 0: the pulses are written, the two rows
// of the state hold the next one, and place 9 of the settings holds the seed that is handed out. Refused: no row is touched.
#[unsafe(no_mangle)]
pub extern "C" fn nsq_del_dec(
    settings: &mut [i32],
    samples: &mut [i16],
    words: &mut [i32],
    x: &[i16],
    pulses: &mut [i8],
    pred: &[i16],
    long: &[i16],
    ar: &[i16],
    harm: &[i32],
    tilt: &[i32],
    lf: &[i32],
    gains: &[i32],
    lags: &[i32],
) -> u32
    ensures { left_of result settings.new samples.new words.new pulses.new
        ≡ called settings.old samples.old words.old
        (call_lent settings.old samples.old words.old pred.now long.now ar.now harm.now tilt.now lf.now gains.now lags.now)
        x.now pulses.old }
{
    let r = calling::called(
        settings, samples, words, x, pulses, pred, long, ar, harm, tilt, lf, gains, lags,
    );
    match r {
        Ok(_) => 0,
        Err(why) => why.number(),
    }
}
