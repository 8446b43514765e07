// Refusal 7: by the lags.
ghost use Rattle.std.specs.Prelude.{◌≡◌};
ghost use Rattle.limits.specs.Tests.{lag_refused, quiet_lag_refused, last_of, lags_refused};

// Is the lag below 2L/5 or above 18L/5? Compared in 64 bits, times 5, so that nothing is divided and nothing wraps.
fn lag_refused(l: i32, lag: &i32) -> bool
    ensures { result ≡ lag_refused l lag.now }
{
    5 * (*lag as i64) < 2 * (l as i64) || 18 * (l as i64) < 5 * (*lag as i64)
}

// The same where the frame is not voiced: 0 is a lag too.
fn quiet_lag_refused(l: i32, lag: i32) -> bool
    ensures { result ≡ quiet_lag_refused l lag }
{
    lag != 0 && lag_refused(l, &lag)
}

// The last of a row, and 0 of an empty one.
fn last_of(lags: &[i32]) -> i32
    ensures { result ≡ last_of lags.now }
{
    lags.last().copied().unwrap_or(0)
}

// 7: a lag is not allowed. A voiced frame, type 2, has all its lags looked at, another frame `lagPrev` and the last.
pub fn lags_refused(l: i32, kind: i32, lagPrev: i32, lags: &[i32]) -> bool
    ensures { result ≡ lags_refused l kind lagPrev lags.now }
{
    if kind == 2 {
        lags.iter().any(|lag| lag_refused(l, lag))
    } else {
        quiet_lag_refused(l, lagPrev) || quiet_lag_refused(l, last_of(lags))
    }
}
