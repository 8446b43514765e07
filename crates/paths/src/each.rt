// What every path does at a sample.
ghost use Rattle.std.specs.Prelude.{◌≡◌, ◌+◌, ◌<◌, ◌≤◌, length};
ghost use Rattle.path.specs.Data.{paths_of};
ghost use Rattle.steps.specs.Carried.{pulses_noted};
ghost use Rattle.steps.specs.Each.{moves as moves_z, pairs as pairs_z, taken_all};

use noise::output;
use path::structs::{Candidate, Common, Fix, Halves, Moves, Path, Q_Q10, States};

// Loops here go by k: two or three rows go together, of which the first n count, and the definitions go by k too.

// All paths moved on, each with its filter's output.
pub fn moves(ps: [Path; 4], f: Fix, h: Halves, ar: &[i16]) -> Moves
    requires { (f.«nStates» ≤ 4) × ((1 ≤ f.«shapingLPCOrder») × ((f.«shapingLPCOrder» ≤ 24) × (f.«shapingLPCOrder» ≤ length ar.now))) }
    ensures { result ≡ moves_z f h ar.now ps }
{
    let n = f.nStates;
    let mut m = Moves {
        owns: ps,
        n_AR_Q14: [0; 4],
    };
    for k in 0..n {
        let p = m.owns[k];
        let t = p.moved(f, h, ar);
        let own = t.own;
        m.owns[k] = own;
        let n_AR = t.n_AR_Q14;
        m.n_AR_Q14[k] = n_AR;
    }
    m
}

// The candidates of all paths that have moved on, m; their rows are those of `ps`.
pub fn pairs(
    m: Moves,
    ps: &States,
    f: Fix,
    a: &[i16],
    s: Common,
    i: usize,
    r0: usize,
) -> [[Candidate; 2]; 4]
    requires { (f.«nStates» ≤ 4) × ((i < 80) × ((r0 < 40) × ((f.«predictLPCOrder» ≤ 16) × (16 ≤ length a.now)))) }
    ensures { result ≡ pairs_z f a.now s i r0 m ps.now.lpcs ps.now.rings }
{
    let n = f.nStates;
    let z = Candidate::zero();
    let mut c = [[z; 2]; 4];
    for k in 0..n {
        let p = m.owns[k];
        let n_AR = m.n_AR_Q14[k];
        c[k] = p.pair(f, a, s, i, r0, n_AR, &ps.lpcs[k], &ps.rings[k]);
    }
    c
}

// Each of the n paths takes its first candidate.
pub fn taken_all(ps: &mut States, c: [[Candidate; 2]; 4], n: usize, i: usize, r: usize)
    requires { (n ≤ 4) × ((16 + i < 96) × (r < 40)) }
    ensures { paths_of ps.new ≡ taken_all c n i r (paths_of ps.old) }
{
    for k in 0..n {
        let p = ps.owns[k];
        let first = c[k][0];
        ps.owns[k] = p.taken(&mut ps.lpcs[k], &mut ps.rings[k], first, i, r);
    }
}

// Each of the n paths notes, at place g of the frame, the pulse of the level that its ring has at place r.
pub fn noted(chosen: &mut [[i8; 320]; 4], rings: &[[[i32; 40]; 5]; 4], n: usize, r: usize, g: usize)
    requires { (n ≤ 4) × ((r < 40) × (g < 320)) }
    ensures { chosen.new ≡ pulses_noted n g r rings.now chosen.old }
{
    // By place: over `chosen.iter_mut().zip(rings).take(n)` the loop has no name for what the rows hold so far, so that the equation for them stays open.
    for k in 0..n {
        let level = rings[k][Q_Q10][r];
        chosen[k][g] = output::pulse_of(level);
    }
}
