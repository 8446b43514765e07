// One sample of all paths.
ghost use Rattle.std.specs.Prelude.{◌≡◌, ◌+◌, ◌<◌, ◌≤◌, length};
ghost use Rattle.path.specs.Data.{paths_of, ring_at};
ghost use Rattle.steps.specs.Among.{full_copy};
ghost use Rattle.steps.specs.Carried.{swap_from, copied_row};
ghost use Rattle.steps.specs.Each.{moves, pairs};
ghost use Rattle.steps.specs.Settled.{settled_of, leaving as leaving_z, settled as settled_z};
ghost use Rattle.steps.specs.Sample.{sample as sample_z};

use crate::each;
use among::replacement;
use path::structs::{
    Candidate, Coefs, Common, Fix, PRED_Q15, Q_Q10, SHAPE_Q14, Sampled, States, XQ_Q14,
};
use penalty::penalties;
use winner::search;

// A word of path w's ring f.
fn ring_at(ring: &[[[i32; 40]; 5]; 4], w: usize, f: usize, at: usize) -> i32
    requires { (w < 4) × ((f < 5) × (at < 40)) }
    ensures { result ≡ ring_at ring.now w f at }
{
    ring[w][f][at]
}

// The words of path w at the place `last` leave, before every path takes its first candidate.
fn leaving(
    ps: &mut States,
    c: [[Candidate; 2]; 4],
    n: usize,
    i: usize,
    r: usize,
    last: usize,
    w: usize,
) -> Sampled
    requires { (n ≤ 4) × ((i < 80) × ((r < 40) × ((last < 40) × (w < 4)))) }
    ensures { settled_of result (paths_of ps.new) ≡ leaving_z c n i r last w (paths_of ps.old) }
{
    let q = ring_at(&ps.rings, w, Q_Q10, last);
    let xq = ring_at(&ps.rings, w, XQ_Q14, last);
    let pred = ring_at(&ps.rings, w, PRED_Q15, last);
    let shape = ring_at(&ps.rings, w, SHAPE_Q14, last);
    each::taken_all(ps, c, n, i, r);
    Sampled {
        Q_Q10: q,
        Xq_Q14: xq,
        Pred_Q15: pred,
        Shape_Q14: shape,
    }
}

// The choice among the paths, once each has its two candidates.
fn settled(
    ps: &mut States,
    chosen: &mut [[i8; 320]; 4],
    c: [[Candidate; 2]; 4],
    n: usize,
    i: usize,
    r: usize,
    last: usize,
) -> Sampled
    requires { ((0 < n) × (n ≤ 4)) × ((i < 80) × ((r < 40) × (last < 40))) }
    ensures words { settled_of result (paths_of ps.new) ≡ settled_z full_copy c n i r last (paths_of ps.old) }
    ensures chosen { chosen.new ≡ copied_row (swap_from c ps.old.rings n last) chosen.old }
{
    let w = search::least(c, 0, n);
    let d = penalties::penalised(c, &ps.rings, n, w, last);
    let s = replacement::swap_of(d, n);
    let e = replacement::moved_over(d, s);
    replacement::replaced(ps, chosen, s);
    leaving(ps, e, n, i, r, last, w)
}

// One sample: r0 is the ring's place before it, r its place now, `last` the place of the sample that leaves. The pulses of a replaced path become those of
// the path that it becomes. Nine parameters: what a sample shares, made and used in one place.
pub fn sample(
    ps: &mut States,
    chosen: &mut [[i8; 320]; 4],
    v: Coefs<'_>,
    f: Fix,
    s: Common,
    i: usize,
    r0: usize,
    r: usize,
    last: usize,
) -> Sampled
    requires { ((0 < f.«nStates») × (f.«nStates» ≤ 4)) × (((i < 80) × ((r0 < 40) × ((r < 40) × (last < 40))))
        × (((f.«predictLPCOrder» ≤ 16) × (16 ≤ length v.a.now))
        × ((1 ≤ f.«shapingLPCOrder») × ((f.«shapingLPCOrder» ≤ 24) × (f.«shapingLPCOrder» ≤ length v.ar.now))))) }
    ensures words { settled_of result (paths_of ps.new)
        ≡ sample_z full_copy f v.entry.half v.entry.a.now v.entry.ar.now s i r0 r last (paths_of ps.old) }
    ensures chosen { chosen.new
        ≡ copied_row (swap_from (pairs f v.entry.a.now s i r0 (moves f v.entry.half v.entry.ar.now ps.old.owns) ps.old.lpcs ps.old.rings) ps.old.rings f.«nStates» last)
        chosen.old }
{
    let m = each::moves(ps.owns, f, v.half, v.ar);
    let c = each::pairs(m, ps, f, v.a, s, i, r0);
    let owns = m.owns;
    ps.owns = owns;
    settled(ps, chosen, c, f.nStates, i, r, last)
}
