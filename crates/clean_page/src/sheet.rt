// A sheet with every number cleared that doesn't count.
ghost use Rattle.std.specs.Prelude.{◌≡◌};
ghost use Rattle.sheet_print.specs.Rows.{rows_of};
ghost use Rattle.clean_page.specs.Sheets.{cleaned_rows};

use cleaning::call;
use sheet_form::rows::Words;
use sheet_form::sheet::Sheet;
use silk::structs::NsqState;

// The samples, the LFs and the gains stay, and so do the counts. The sheet starts from a fresh state, whose lag decides about the harmonic gains.
pub fn clean(read: &Sheet) -> Sheet
    ensures { rows_of result ≡ cleaned_rows (rows_of read.now) }
{
    let mut pred_coef = read.pred_coef.words();
    let mut ltp_coef = read.ltp_coef.words();
    let mut ar = read.ar.words();
    let mut harm_gains = read.harm_gains.words();
    let mut tilts = read.tilts.words();
    let mut lags = read.lags.words();
    let settings = call::clean(
        read.settings,
        NsqState::FRESH_LAG,
        &mut pred_coef[..read.pred_coef.len()],
        &mut ltp_coef[..read.ltp_coef.len()],
        &mut ar[..read.ar.len()],
        &mut harm_gains[..read.harm_gains.len()],
        &mut tilts[..read.tilts.len()],
        &mut lags[..read.lags.len()],
    );
    Sheet {
        settings,
        samples: read.samples,
        pred_coef: Words::of(&pred_coef[..read.pred_coef.len()]),
        ltp_coef: Words::of(&ltp_coef[..read.ltp_coef.len()]),
        ar: Words::of(&ar[..read.ar.len()]),
        harm_gains: Words::of(&harm_gains[..read.harm_gains.len()]),
        tilts: Words::of(&tilts[..read.tilts.len()]),
        lfs: read.lfs,
        gains: read.gains,
        lags: Words::of(&lags[..read.lags.len()]),
    }
}
