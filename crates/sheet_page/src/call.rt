// The call of a sheet that could be read.
ghost use Rattle.std.specs.Prelude.{◌≡◌, min, pos};
ghost use Rattle.steps.specs.Among.{keeps_first};
ghost use Rattle.steps.specs.Entry.{outcome, handed, reported};
ghost use Rattle.steps.specs.Report.{report};
ghost use Rattle.steps.specs.Sizes.{sizes_of};
ghost use Rattle.sheet_print.specs.Rows.{rows_of};
ghost use Rattle.sheet_page.specs.Calls.{frame_length, pulses_for, settings_in, samples_in, sheet_call, defaulted, sheet_answer};

use limits::count;
use nsq::entry;
use refusal_rules::answer::{Answer, Sizes};
use refusals::check;
use sheet_form::sheet;
use sheet_form::sheet::Sheet;
use silk::structs::{NsqState, Settings};
use steps::structs::{Coded, Refused};

// A count, but no more than the 320 words that a row can have.
pub fn words_of(count: usize) -> usize
    ensures { result ≡ min 320 count }
{
    count.min(320)
}

// N.
fn frame_length(s: Settings) -> usize
    ensures { result ≡ frame_length s }
{
    count::count(s.nb_subfr) * count::count(s.subfr_length)
}

// How long a row for the pulses the call is lent: N words, but never more than 320. Only a call that is refused for its lengths has more.
pub fn pulse_count(s: Settings) -> usize
    ensures { result ≡ min 320 (frame_length s) }
{
    words_of(frame_length(s))
}

// How long the rows of the sheet's call are, with N words for its pulses.
fn sizes(read: &Sheet) -> Sizes
    ensures { result ≡ sizes_of (defaulted (sheet_call (rows_of read.now))) (samples_in (rows_of read.now)) (pulses_for (settings_in (rows_of read.now))) }
{
    Sizes {
        samples: read.samples.len(),
        pred_coef: read.pred_coef.len(),
        ltp_coef: read.ltp_coef.len(),
        ar: read.ar.len(),
        harm_gain: read.harm_gains.len(),
        tilt: read.tilts.len(),
        lf: read.lfs.len(),
        pulses: frame_length(read.settings),
    }
}

// The answer that the sheet's call gets from a fresh state; nothing is coded. Path count 0 stands for the default one.
pub fn checked(read: &Sheet) -> Answer
    ensures { result ≡ sheet_answer (rows_of read.now) }
{
    check::check(
        sheet::with_default(read.settings),
        sizes(read),
        NsqState::FRESH_LAG,
        NsqState::FRESH_GAIN_Q16,
        read.gains.as_slice(),
        read.lags.as_slice(),
    )
}

// The sheet's call from a fresh state, with the pulses in the row that is lent. Path count 0 stands for the default one.
pub fn answered(read: &Sheet, out: &mut [i8]) -> Result<Coded, Refused>
    ensures outcome { handed result out.new ≡ outcome keeps_first (defaulted (sheet_call (rows_of read.now))) (samples_in (rows_of read.now)) out.old }
    ensures report { reported result ≡ pos (report keeps_first (defaulted (sheet_call (rows_of read.now))) (samples_in (rows_of read.now)) out.old) }
{
    entry::silk_NSQ_del_dec(
        sheet::with_default(read.settings),
        NsqState::fresh(),
        read.samples.as_slice(),
        out,
        read.pred_coef.as_slice(),
        read.ltp_coef.as_slice(),
        read.ar.as_slice(),
        read.harm_gains.as_slice(),
        read.tilts.as_slice(),
        read.lfs.as_slice(),
        read.gains.as_slice(),
        read.lags.as_slice(),
    )
}
