// The two candidates of one sample, the cheaper first.
ghost use Rattle.std.specs.Prelude.{◌≡◌};
ghost use Rattle.choice.specs.RustChoice.{ordered as ordered_z, choice};

use crate::cost;
use fixed::wrap;
use levels::{level, lower};

// Two levels, each with its own cost; all numbers are in Q10.
#[derive(Clone, Copy)]
pub struct Choice {
    pub first_level: i32,
    pub first_cost: i32,
    pub second_level: i32,
    pub second_cost: i32,
}

// The cheaper one first; a tie takes the upper level, q2.
fn ordered(q1: i32, rd1: i32, q2: i32, rd2: i32) -> Choice
    ensures { result ≡ ordered_z q1 rd1 q2 rd2 }
{
    if rd1 < rd2 {
        return Choice {
            first_level: q1,
            first_cost: rd1,
            second_level: q2,
            second_cost: rd2,
        };
    }
    Choice {
        first_level: q2,
        first_cost: rd2,
        second_level: q1,
        second_cost: rd1,
    }
}

// The candidates for the residual r, after its sign step and clamp.
pub fn candidates(r: i32, lambda: i32, offset: i32) -> Choice
    ensures { result ≡ choice r lambda offset }
{
    let p = lower::lower_pulse(wrap::sub32(r, offset), lambda);
    let t = level::tried(p, offset, lambda);
    let rd1 = cost::with_noise(t.rd1, r, t.q1);
    let rd2 = cost::with_noise(t.rd2, r, t.q2);
    ordered(t.q1, rd1, t.q2, rd2)
}
