// The answer of a call.
ghost use Rattle.std.specs.Prelude.{◌≡◌};
ghost use Rattle.refusal_rules.specs.Table.{answer_of};

use crate::rows;
use lag_limits::lags;
use limits::gains;
use refusal_rules::answer::{Answer, Refusal, Sizes};
use setting_limits::settings;
use silk::structs::Settings;

// The first refusal of the table that applies (docs/RULES.md), else accepted. `lagPrev` and `prev_gain_Q16` are the state's.
pub fn check(
    s: Settings,
    z: Sizes,
    lagPrev: i32,
    prev_gain_Q16: i32,
    gains: &[i32],
    lags: &[i32],
) -> Answer
    ensures { result ≡ answer_of s z lagPrev prev_gain_Q16 gains.now lags.now }
{
    if settings::lengths_refused(s.subfr_length, s.nb_subfr) {
        return Err(Refusal::Lengths);
    }
    if settings::orders_refused(s.subfr_length, s.predictLPCOrder, s.shapingLPCOrder) {
        return Err(Refusal::Orders);
    }
    if settings::paths_refused(s.nStatesDelayedDecision) {
        return Err(Refusal::Paths);
    }
    if settings::kinds_refused(s.signalType, s.quantOffsetType, s.NLSFInterpCoef_Q2, s.Seed) {
        return Err(Refusal::Kinds);
    }
    if rows::rows_refused(s.subfr_length, s.nb_subfr, z, gains.len(), lags.len()) {
        return Err(Refusal::Rows);
    }
    if gains::gains_refused(prev_gain_Q16, gains) {
        return Err(Refusal::Gains);
    }
    if lags::lags_refused(s.subfr_length, s.signalType, lagPrev, lags) {
        return Err(Refusal::Lags);
    }
    Ok(())
}
