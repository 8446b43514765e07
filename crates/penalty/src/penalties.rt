// The penalty of a path that was another one than the winner at the decision delay.
ghost use Rattle.std.specs.Prelude.{◌≡◌, ◌<◌, ◌≤◌};
ghost use Rattle.penalty.specs.Penalty.{raised_unless, penalised as penalised_z};

use path::structs::{Candidate, RAND_STATE};

// Both candidates of a path, with the penalty unless its RandState is the winner's.
fn raised_unless(row: [Candidate; 2], state: i32, mark: i32) -> [Candidate; 2]
    ensures { result ≡ raised_unless row state mark }
{
    if state == mark {
        return row;
    }
    let u = row[0];
    let v = row[1];
    [u.raised(), v.raised()]
}

// The candidates with the penalties, where path w won and `last` is the ring's place at the decision delay.
pub fn penalised(
    mut c: [[Candidate; 2]; 4],
    ring: &[[[i32; 40]; 5]; 4],
    n: usize,
    w: usize,
    last: usize,
) -> [[Candidate; 2]; 4]
    requires { (n ≤ 4) × ((w < 4) × (last < 40)) }
    ensures { result ≡ penalised_z c ring.now n w last }
{
    let mark = ring[w][RAND_STATE][last];
    // By place: over `c.iter_mut().zip(ring).take(n)` the loop has no name for what c holds so far, so that the equation for its result stays open.
    for k in 0..n {
        let state = ring[k][RAND_STATE][last];
        let row = c[k];
        c[k] = raised_unless(row, state, mark);
    }
    c
}
