// When the reader refuses.
ghost use Rattle.std.specs.Prelude.{◌≡◌, Err};
ghost use Rattle.fixed.specs.Iter.{either};
ghost use Rattle.excitation.specs.declared.answer.Refusal.TheVariants.{Seeds, Kinds, Rows};
ghost use Rattle.excitation.specs.Code.{Accepted};
ghost use Rattle.excitation.specs.Refused.{kinds_refused, rows_refused, answer_of};

use crate::answer::{Answer, Refusal};
use setting_limits::settings;

// 2: the signal type or the offset type is not one of the RFC's.
fn kinds_refused(signal_type: i32, offset_type: i32) -> bool
    ensures { result ≡ kinds_refused signal_type offset_type }
{
    settings::outside(0, 2, signal_type) || settings::outside(0, 1, offset_type)
}

// 3: the rows differ in length, or are longer than a frame can be.
fn rows_refused(pulses: usize, row: usize) -> bool
    ensures { result ≡ rows_refused pulses row }
{
    pulses != row || 320 < pulses
}

// The answer with the lowest number among those that apply.
fn lowest(seeds: bool, kinds: bool, rows: bool) -> Answer
    ensures { result ≡ either seeds (Err Seeds) (either kinds (Err Kinds) (either rows (Err Rows) Accepted)) }
{
    if seeds {
        return Err(Refusal::Seeds);
    }
    if kinds {
        return Err(Refusal::Kinds);
    }
    if rows {
        return Err(Refusal::Rows);
    }
    Ok(())
}

// The answer to a call. Of the rows the lengths are given.
pub fn check(seed: i32, signal_type: i32, offset_type: i32, pulses: usize, row: usize) -> Answer
    ensures { result ≡ answer_of seed signal_type offset_type pulses row }
{
    let seeds = settings::outside(0, 3, seed);
    let kinds = kinds_refused(signal_type, offset_type);
    let rows = rows_refused(pulses, row);
    lowest(seeds, kinds, rows)
}
