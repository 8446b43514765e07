// Which numbers of a call count: docs/RULES.md, "What counts". Each function is one test of specs/Cleaned.antt or one of the conditions that those
// go by, and none asks anything of its caller.
ghost use Rattle.std.specs.Prelude.{◌≡◌, pos, ltb};
ghost use Rattle.limits.specs.Count.{nat_z, same_z};
ghost use Rattle.counts.specs.Conditions.{voiced as is_voiced, one_row, row_zero_only, no_lag};
ghost use Rattle.cleaning.specs.Cleaned.{row0_counts, row1_counts, pred_counts, ar_counts};

use limits::count;
use silk::structs::Settings;

// A frame of type 2.
pub fn voiced(s: Settings) -> bool
    ensures { result ≡ is_voiced s }
{
    s.signalType == 2
}

// Interpolation 4: row 0 is not reached.
fn one_row(s: Settings) -> bool
    ensures { result ≡ one_row s }
{
    s.NLSFInterpCoef_Q2 == 4
}

// n is 2.
fn two(s: Settings) -> bool
    ensures { result ≡ same_z s.nb_subfr (pos 2) }
{
    s.nb_subfr == 2
}

// n is 2 and interpolation is not 4: row 1 is not reached.
fn row_zero_only(s: Settings) -> bool
    ensures { result ≡ row_zero_only s }
{
    two(s) && !one_row(s)
}

// Not voiced, and no lag from the frame before.
pub fn no_lag(s: Settings, lagPrev: i32) -> bool
    ensures { result ≡ no_lag s lagPrev }
{
    !voiced(s) && lagPrev == 0
}

// Slot i is one of the order's.
fn below(order: i32, i: usize) -> bool
    ensures { result ≡ ltb i (nat_z order) }
{
    i < count::count(order)
}

// PredCoef, place i, as a slot of row 0.
fn row0(s: Settings, i: usize) -> bool
    ensures { result ≡ row0_counts s i }
{
    !one_row(s) && below(s.predictLPCOrder, i)
}

// As a slot of row 1, which begins at place 16.
fn row1(s: Settings, i: usize) -> bool
    ensures { result ≡ row1_counts s i }
{
    !row_zero_only(s) && (16 <= i && below(s.predictLPCOrder, i - 16))
}

// PredCoef, place i.
pub fn pred(s: Settings, i: usize) -> bool
    ensures { result ≡ pred_counts s i }
{
    row0(s, i) || row1(s, i)
}

// AR, place i: a slot of a subframe's 24.
pub fn ar(s: Settings, i: usize) -> bool
    ensures { result ≡ ar_counts s i }
{
    below(s.shapingLPCOrder, i % 24)
}
