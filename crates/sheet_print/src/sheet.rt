// The text of a sheet: a section to a line, its count first, one space between.
ghost use Rattle.std.specs.Prelude.{◌≡◌, length, map};
ghost use Rattle.pages.specs.Added.{Added};
ghost use Rattle.sheet_text.specs.Text.{section_text, sheet_text};
ghost use Rattle.sheet_print.specs.Rows.{settings_row, rows_of};

use pages::number::Number;
use pages::page::Page;
use sheet_form::sheet::Sheet;
use silk::structs::Settings;

// The numbers of a row as a section on its line.
fn row_line<T: Number>(page: &mut Page, row: &[T])
    ensures { Added page.old (section_text (map T.value row.now)) page.new }
{
    page.digits(row.len() as u64);
    for x in row {
        page.put(b' ');
        page.decimal(*x);
    }
    page.put(b'\n');
}

// The twelve settings as a row.
pub fn settings_words(s: Settings) -> [i32; 12]
    ensures { result ≡ settings_row s }
{
    [
        s.subfr_length,
        s.nb_subfr,
        s.predictLPCOrder,
        s.shapingLPCOrder,
        s.nStatesDelayedDecision,
        s.warping_Q16,
        s.signalType,
        s.quantOffsetType,
        s.NLSFInterpCoef_Q2,
        s.Seed,
        s.Lambda_Q10,
        s.LTP_scale_Q14,
    ]
}

// A sheet: its settings and its nine rows.
pub fn print(page: &mut Page, s: &Sheet)
    ensures { Added page.old (sheet_text (rows_of s.now)) page.new }
{
    row_line(page, &settings_words(s.settings));
    row_line(page, s.samples.as_slice());
    row_line(page, s.pred_coef.as_slice());
    row_line(page, s.ltp_coef.as_slice());
    row_line(page, s.ar.as_slice());
    row_line(page, s.harm_gains.as_slice());
    row_line(page, s.tilts.as_slice());
    row_line(page, s.lfs.as_slice());
    row_line(page, s.gains.as_slice());
    row_line(page, s.lags.as_slice());
}
