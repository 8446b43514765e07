// A whole call sheet: read from bytes.
ghost use Rattle.std.specs.Prelude.{◌≡◌};
ghost use Rattle.sheet_form.specs.Sections.{reading};
ghost use Rattle.sheet_form.specs.Found.{rest_at};
ghost use Rattle.sheet_form.specs.Sheets.{sheet_of, with_default, start_rest, verdict_of, end_of};

use crate::fault::Fault;
use crate::rows::{Row16, Row32};
use crate::section;
use settings_row::named;
use sheet_words::words;
use sheet_words::words::Class;
use silk::structs::Settings;

// The bytes that a sheet can have, at most.
pub const MOST_BYTES: usize = 65536;

// Path count 0 on a sheet stands for this one.
pub const DEFAULT_PATHS: i32 = 2;

// A sheet that could be read: its settings and its nine rows.
#[derive(Clone, Copy)]
pub struct Sheet {
    pub settings: Settings,
    pub samples: Row16,
    pub pred_coef: Row16,
    pub ltp_coef: Row16,
    pub ar: Row16,
    pub harm_gains: Row32,
    pub tilts: Row32,
    pub lfs: Row32,
    pub gains: Row32,
    pub lags: Row32,
}

// Where a sheet starts. The length is looked at first.
pub fn start(text: &[u8]) -> Result<usize, Fault>
    ensures { rest_at text.now result ≡ start_rest text.now }
{
    if MOST_BYTES < text.len() {
        Err(Fault { number: 0 })
    } else {
        Ok(0)
    }
}

// After the last section only separators may follow, else there is fault k. A fault that was met before is handed on.
pub fn end(text: &[u8], from: Result<usize, Fault>, k: u32) -> Result<(), Fault>
    ensures { verdict_of result ≡ end_of k (rest_at text.now from) }
{
    let at = from?;
    if text.len() <= words::end_of_run(text, at, Class::Separator) {
        Ok(())
    } else {
        Err(Fault { number: k })
    }
}

// What the bytes are: a sheet, or one with a fault.
pub fn read(text: &[u8]) -> Result<Sheet, Fault>
    ensures { result ≡ sheet_of (reading text.now) }
{
    let (first, at2) = section::settings_section(text, start(text))?;
    let (samples, at3) = section::section16(text, Ok(at2), 2)?;
    let (pred_coef, at4) = section::section16(text, Ok(at3), 3)?;
    let (ltp_coef, at5) = section::section16(text, Ok(at4), 4)?;
    let (ar, at6) = section::section16(text, Ok(at5), 5)?;
    let (harm_gains, at7) = section::section32(text, Ok(at6), 6)?;
    let (tilts, at8) = section::section32(text, Ok(at7), 7)?;
    let (lfs, at9) = section::section32(text, Ok(at8), 8)?;
    let (gains, at10) = section::section32(text, Ok(at9), 9)?;
    let (lags, at11) = section::section32(text, Ok(at10), 10)?;
    end(text, Ok(at11), 11)?;
    Ok(Sheet {
        settings: named::settings_of(first.as_slice()),
        samples,
        pred_coef,
        ltp_coef,
        ar,
        harm_gains,
        tilts,
        lfs,
        gains,
        lags,
    })
}

// The settings with the house's path count where the sheet leaves it to the house.
pub fn with_default(settings: Settings) -> Settings
    ensures { result ≡ with_default settings }
{
    let mut s = settings;
    if settings.nStatesDelayedDecision == 0 {
        s.nStatesDelayedDecision = DEFAULT_PATHS;
    }
    s
}
