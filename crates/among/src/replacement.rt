// The replacement of one path by another.
ghost use Rattle.std.specs.Prelude.{◌≡◌, ℕ, ◌<◌, ◌≤◌};
ghost use Rattle.path.specs.Data.{paths_of};
ghost use Rattle.steps.specs.Among.{swap_of, full_copy, replaced as replaced_z, moved_over};
ghost use Rattle.steps.specs.Carried.{copied_row};

use path::structs::{Candidate, States, Swap};
use winner::search;

// Which path is replaced by which, if any: only by a strictly cheaper candidate.
pub fn swap_of(c: [[Candidate; 2]; 4], n: usize) -> Swap
    requires { (0 < n) × (n ≤ 4) }
    ensures { (result ≡ swap_of c n) × ((result.to < n) × (result.by < n)) }
{
    let to = search::worst_first(c, n);
    let by = search::least(c, 1, n);
    let worst = c[to][0];
    let least = c[by][1];
    Swap {
        yes: least.RD_Q10 < worst.RD_Q10,
        to,
        by,
    }
}

// The paths after the replacement, if there is one: the replaced path becomes a full copy, whatever the sample's place i in its subframe, and the
// pulses that it chose so far are those of the path that it becomes.
pub fn replaced(ps: &mut States, chosen: &mut [[i8; 320]; 4], s: Swap)
    requires { (s.to < 4) × (s.by < 4) }
    ensures words { (i : ℕ) → paths_of ps.new ≡ replaced_z full_copy s i (paths_of ps.old) }
    ensures chosen { chosen.new ≡ copied_row s chosen.old }
{
    if s.yes {
        let to = s.to;
        let by = s.by;
        let p = ps.owns[by];
        ps.owns[to] = p;
        let words = ps.lpcs[by];
        ps.lpcs[to] = words;
        let rings = ps.rings[by];
        ps.rings[to] = rings;
        let row = chosen[by];
        chosen[to] = row;
    }
}

// The candidates after it: the cheaper second one is now the replaced path's first.
pub fn moved_over(mut c: [[Candidate; 2]; 4], s: Swap) -> [[Candidate; 2]; 4]
    requires { (s.to < 4) × (s.by < 4) }
    ensures { result ≡ moved_over c s }
{
    if s.yes {
        let to = s.to;
        let by = s.by;
        let first = c[by][1];
        let second = c[to][1];
        c[to] = [first, second];
    }
    c
}
