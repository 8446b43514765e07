// When a call's gains are refused (settings: `setting_limits`, lags: `lag_limits`), the counts that settings stand for, and the
// definitions of all three: docs/RULES.md, "What a call is given" and "Which number comes back". Every number has its answer.
#![tactic(auto)]

pub mod count;
pub mod gains;
