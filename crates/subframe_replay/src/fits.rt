// Whether a subframe's numbers are those that the two functions ask for. They are, for all that are replayed here: one that
// is not would be left out, and the output would lack its line.
ghost use Rattle.std.specs.Prelude.{◌≡◌, true, false, ◌+◌, ◌*◌, ◌<◌, ◌≤◌};
ghost use Rattle.places.specs.Places.{Fits};

use path::structs::Fix;

// The orders and the number of paths.
fn orders(f: Fix) -> bool
    ensures { (result ≡ true) → ((0 < f.«nStates») × (f.«nStates» ≤ 4) × (f.«predictLPCOrder» ≤ 16) × (1 ≤ f.«shapingLPCOrder») × (f.«shapingLPCOrder» ≤ 24)) }
{
    let paths = 1 <= f.nStates && f.nStates <= 4;
    let shaping = 1 <= f.shapingLPCOrder && f.shapingLPCOrder <= 24;
    paths && f.predictLPCOrder <= 16 && shaping
}

// The lengths and places, each by itself.
fn places(f: Fix) -> bool
    ensures { (result ≡ true) → ((f.subfr_length ≤ 80) × (f.«decisionDelay» ≤ 40) × (f.base ≤ 240) × (f.buf ≤ 560) × (f.lag ≤ 318)) }
{
    f.subfr_length <= 80 && f.decisionDelay <= 40 && f.base <= 240 && f.buf <= 560 && f.lag <= 318
}

// The same against each other.
fn behind(f: Fix) -> bool
    requires { (f.subfr_length ≤ 80) × (f.lag ≤ 318) }
    ensures { (result ≡ true) → ((4 * f.subfr_length ≤ f.buf) × (f.«decisionDelay» ≤ f.buf) × (f.lag + 2 ≤ 4 * f.subfr_length)) }
{
    let history = 4 * f.subfr_length;
    history <= f.buf && f.decisionDelay <= f.buf && f.lag + 2 <= history
}

// Whether the delay fits a voiced subframe's lag.
fn voiced_fits(f: Fix) -> bool
    ensures { (result ≡ true) → (f.voiced ≡ true) → ((2 ≤ f.lag) × (f.«decisionDelay» ≤ f.lag)) }
{
    !f.voiced || (2 <= f.lag && f.decisionDelay <= f.lag)
}

// Whether a subframe that is not the first has what is held back behind it.
fn held_fits(f: Fix) -> bool
    ensures { (result ≡ true) → (f.first ≡ false) → (f.«decisionDelay» ≤ f.base) }
{
    f.first || f.decisionDelay <= f.base
}

pub fn fits(f: Fix) -> bool
    ensures { (result ≡ true) → Fits f }
{
    orders(f) && places(f) && behind(f) && voiced_fits(f) && held_fits(f)
}
