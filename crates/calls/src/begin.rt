// The paths before the first subframe.
ghost use Rattle.std.specs.Prelude.{◌≡◌, ◌<◌, ◌≤◌, replicate};
ghost use Rattle.silk.specs.State.{zeros};
ghost use Rattle.path.specs.Data.{paths, paths_of};
ghost use Rattle.steps.specs.Begin.{zero_path, zero_lpcs, zero_rings, own_from, start_lpc, start_rings, begun};

use path::structs::{Path, SHAPE_Q14, States};

// The LPC words of one path.
fn zero_lpc() -> [i32; 96]
    ensures { result ≡ zeros 96 }
{
    [0; 96]
}

// A ring of a path.
fn zero_ring() -> [i32; 40]
    ensures { result ≡ zeros 40 }
{
    [0; 40]
}

// A path of zeros.
fn zero_path() -> Path
    ensures { result ≡ zero_path }
{
    Path {
        sAR2_Q14: [0; 24],
        LF_AR_Q14: 0,
        Diff_Q14: 0,
        Seed: 0,
        SeedInit: 0,
        RD_Q10: 0,
    }
}

// The short words of path k.
fn start_own(ar2: [i32; 24], lf: i32, diff: i32, seed: usize, k: usize) -> Path
    requires { (seed < 4) × (k < 4) }
    ensures { result ≡ own_from ar2 lf diff seed k }
{
    let s = ((k + seed) % 4) as i32;
    Path {
        sAR2_Q14: ar2,
        LF_AR_Q14: lf,
        Diff_Q14: diff,
        Seed: s,
        SeedInit: s,
        RD_Q10: 0,
    }
}

// The LPC words of a path: 16 of the state's, then zeros.
fn start_lpc(lpc: [i32; 96]) -> [i32; 96]
    ensures { result ≡ start_lpc lpc }
{
    let mut row = zero_lpc();
    row[..16].copy_from_slice(&lpc[..16]);
    row
}

// The rings of a path: zeros, but for the first shaping word.
fn start_rings(shape: i32) -> [[i32; 40]; 5]
    ensures { result ≡ start_rings shape }
{
    let none = zero_ring();
    let mut rings = [none; 5];
    let mut shaping = none;
    shaping[0] = shape;
    rings[SHAPE_Q14] = shaping;
    rings
}

// Four paths of zeros.
pub fn zero_states() -> States
    ensures { paths_of result ≡ paths (replicate 4 zero_path) zero_lpcs zero_rings }
{
    let none = zero_path();
    States::of([none; 4], [[0; 96]; 4], [[[0; 40]; 5]; 4])
}

// The first n paths begun, their rows written; the short words of the others are zero, and their rows stay. By k, as three rows go together and the
// seed goes by it. The words of a state that a path begins with are parameters, as they are read once.
pub fn start_paths(
    ar2: [i32; 24],
    lf: i32,
    diff: i32,
    lpc: [i32; 96],
    shape: i32,
    seed: usize,
    n: usize,
    ps: &mut States,
)
    requires { (seed < 4) × (n ≤ 4) }
    ensures { paths_of ps.new ≡ begun ar2 lf diff lpc shape seed n (paths (replicate 4 zero_path) ps.old.lpcs ps.old.rings) }
{
    let row = start_lpc(lpc);
    let ring = start_rings(shape);
    let none = zero_path();
    ps.owns = [none; 4];
    for k in 0..n {
        ps.owns[k] = start_own(ar2, lf, diff, seed, k);
        ps.lpcs[k] = row;
        ps.rings[k] = ring;
    }
}
