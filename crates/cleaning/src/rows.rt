// Each row with what doesn't count cleared, in place; a row of any length keeps it. The samples, the LFs and the gains count whole, so that nothing here
// is about them.
ghost use Rattle.std.specs.Prelude.{ℕ, ◌≡◌, ◌<◌, Bool, length};
ghost use Rattle.fixed.specs.Wrap.{wrap16};
ghost use Rattle.cleaning.specs.Cleaned.{kept_at, low_row, pred_counts, ltp_counts, ar_counts, harm_counts, lag_counts, cleaned_settings};

use crate::tests;
use silk::structs::Settings;

// The low 16 bits of a number, with their sign: what `wrap::low16` keeps, in 32 bits.
fn low(w: i32) -> i32
    ensures { result ≡ wrap16 w }
{
    (w << 16) >> 16
}

// A row with the numbers kept whose places count; f is any function that says what `counts` answers.
fn keep<F: Fn(usize) -> bool>(row: &mut [i16], counts: F)
    requires { F.IsAlwaysCallable counts }
    ensures { (f : ℕ → Bool) → ((i : ℕ) (b : Bool) → i < length row.old → F.post counts i b → b ≡ f i) → row.new ≡ kept_at f row.old }
{
    for (i, w) in row.iter_mut().enumerate() {
        if !counts(i) {
            *w = 0;
        }
    }
}

// PredCoef.
pub fn pred(row: &mut [i16], s: Settings)
    ensures { row.new ≡ kept_at (pred_counts s) row.old }
{
    keep(row, |i| tests::pred(s, i));
}

// LTPCoef: whole, or nothing of it.
pub fn ltp(row: &mut [i16], s: Settings)
    ensures { row.new ≡ kept_at (ltp_counts s) row.old }
{
    if !tests::voiced(s) {
        row.fill(0);
    }
}

// AR.
pub fn ar(row: &mut [i16], s: Settings)
    ensures { row.new ≡ kept_at (ar_counts s) row.old }
{
    keep(row, |i| tests::ar(s, i));
}

// The harmonic gains, after the lag of the frame before: whole, or nothing of them.
pub fn harm(row: &mut [i32], s: Settings, lagPrev: i32)
    ensures { row.new ≡ kept_at (harm_counts s lagPrev) row.old }
{
    if tests::no_lag(s, lagPrev) {
        row.fill(0);
    }
}

// The tilts, each in its low 16 bits.
pub fn tilt(row: &mut [i32])
    ensures { row.new ≡ low_row row.old }
{
    for w in row.iter_mut() {
        *w = low(*w);
    }
}

// The lags: all in a voiced frame, else the last.
pub fn lags(row: &mut [i32], s: Settings)
    ensures { row.new ≡ kept_at (lag_counts s (length row.old)) row.old }
{
    if tests::voiced(s) {
        return;
    }
    if let Some((_last, rest)) = row.split_last_mut() {
        rest.fill(0);
    }
}

// The settings: warping in its low 16 bits, and so the LTP scale of a voiced frame; that of any other is 0.
pub fn settings(s: Settings) -> Settings
    ensures { result ≡ cleaned_settings s }
{
    let warping = low(s.warping_Q16);
    let scale = if tests::voiced(s) {
        low(s.LTP_scale_Q14)
    } else {
        0
    };
    let mut t = s;
    t.warping_Q16 = warping;
    t.LTP_scale_Q14 = scale;
    t
}
