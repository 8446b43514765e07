// The cheapest and the dearest of the paths.
ghost use Rattle.std.specs.Prelude.{◌≡◌, ◌<◌, ◌≤◌, ℕ, Bool};
ghost use Rattle.winner.specs.Winner.{first_of, cheaper, dearer, least_of, worst_of};

use path::structs::Candidate;

// The first of n that no later one beats: the search goes on to k where k beats what it found. It is the number that is sought.
pub fn first_best<F: Fn(usize, usize) -> bool>(n: usize, beats: F) -> usize
    ghost order: { ℕ → ℕ → Bool }
    requires some { 0 < n }
    requires calls { (k w : ℕ) → k < n → w < n → F.pre beats k w }
    requires told { (k w : ℕ) (r : Bool) → k < n → w < n → F.post beats k w r → r ≡ order k w }
    ensures { (result ≡ first_of order n) × (result < n) }
{
    let mut w: usize = 0;
    for k in 0..n {
        if beats(k, w) {
            w = k;
        }
    }
    w
}

// The path whose candidate m is cheapest, the lowest on ties: the winner, where m is 0.
pub fn least(c: [[Candidate; 2]; 4], m: usize, n: usize) -> usize
    requires { (m < 2) × ((0 < n) × (n ≤ 4)) }
    ensures { (result ≡ least_of c m n) × (result < n) }
{
    first_best(
        n,
        |k: usize, w: usize| -> bool
            requires { ((k < 4) × (w < 4)) × (m < 2) }
            ensures { result ≡ cheaper c m k w }
        { c[k][m].RD_Q10 < c[w][m].RD_Q10 },
    )
}

// The path whose first candidate is dearest, the lowest on ties.
pub fn worst_first(c: [[Candidate; 2]; 4], n: usize) -> usize
    requires { (0 < n) × (n ≤ 4) }
    ensures { (result ≡ worst_of c n) × (result < n) }
{
    first_best(
        n,
        |k: usize, w: usize| -> bool
            requires { (k < 4) × (w < 4) }
            ensures { result ≡ dearer c k w }
        { c[w][0].RD_Q10 < c[k][0].RD_Q10 },
    )
}
