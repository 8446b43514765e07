// The winner by running cost, the flush of its last samples, and the penalty of the others.
ghost use Rattle.std.specs.Prelude.{◌≡◌, ◌+◌, ◌<◌, ◌≤◌, length, get_or, []};
ghost use Rattle.std.specs.Int.Signed.{lt_z};
ghost use Rattle.fixed.specs.Row.{word};
ghost use Rattle.path.specs.Data.{no_path};
ghost use Rattle.steps.specs.Flush.{best_of, raised_path, other_path, others_raised, flushed as flushed_z, outs};
ghost use Rattle.edges.specs.Fits.{fit_by};

use fixed::wrap;
use noise::output;
use path::structs::{Path, Q_Q10, SHAPE_Q14, XQ_Q14};
use shifts::shift;
use winner::search;

// The path of least running cost, the lowest on ties.
pub fn best(ps: [Path; 4], n: usize) -> usize
    requires { (0 < n) × (n ≤ 4) }
    ensures { (result ≡ best_of ps n) × (result < n) }
{
    search::first_best(
        n,
        |k: usize, w: usize| -> bool
            requires { (k < 4) × (w < 4) }
            ensures { result ≡ lt_z (get_or ps k no_path).RD_Q10 (get_or ps w no_path).RD_Q10 }
        { ps[k].RD_Q10 < ps[w].RD_Q10 },
    )
}

// A path with the penalty on its running cost. As `Candidate::raised` of a candidate: each meets a definition of its own.
fn raised(mut p: Path) -> Path
    ensures { result ≡ raised_path p }
{
    p.RD_Q10 = wrap::add32(p.RD_Q10, 134217727);
    p
}

// Path k with the penalty, unless it is the winner w.
fn other(p: Path, k: usize, w: usize) -> Path
    ensures { result ≡ other_path w k p }
{
    if k == w { p } else { raised(p) }
}

// Every path but the winner gets the penalty.
pub fn others_raised(ps: &mut [Path; 4], w: usize, n: usize)
    requires { n ≤ 4 }
    ensures { ps.new ≡ others_raised w n ps.old }
{
    // By place: tried over `ps[..n].iter_mut().enumerate()`; that the whole array, put together again, is the promised one stayed open.
    for k in 0..n {
        let p = ps[k];
        ps[k] = other(p, k, w);
    }
}

// A word of ring f of one path; that of four paths stands in `paths`.
fn ring_at(ring: &[[i32; 40]; 5], f: usize, at: usize) -> i32
    requires { (f < 5) × (at < 40) }
    ensures { result ≡ word (get_or ring.now f []) at }
{
    ring[f][at]
}

// How a history sample of a flush is scaled: in the middle of the frame by the gain and 14, at its end by the gain >> 6 and 8.
#[derive(Clone, Copy)]
pub enum Fit {
    Middle(i32),
    Last(i32),
}

impl Fit {
    // A history sample of a flush.
    fn fitted(self, xq: i32) -> i16
        ensures { result ≡ fit_by self xq }
    {
        match self {
            Fit::Middle(gain) => output::xq_out(xq, gain, 14),
            Fit::Last(gain) => output::xq_out(xq, shift::shr32(gain, 6), 8),
        }
    }
}

// The winner's last d samples handed out, when g samples of the frame are done: h is where the frame starts in the histories, r the ring's place. By a
// number, since the ring's places go round while those of three rows go up.
pub fn flushed(
    xq: &mut [i16; 640],
    shp: &mut [i32; 640],
    pulses: &mut [i8],
    ring: &[[i32; 40]; 5],
    fit: Fit,
    h: usize,
    d: usize,
    g: usize,
    r: usize,
)
    requires { ((d ≤ g) × (h + g ≤ 640)) × ((g ≤ length pulses.old) × (r < 40)) }
    ensures { outs xq.new shp.new pulses.new ≡ flushed_z h ring.now (fit_by fit) d g r (outs xq.old shp.old pulses.old) }
{
    for i in 0..d {
        let last = (r + d - 1 - i) % 40;
        let p = g - d + i;
        let x = ring_at(ring, XQ_Q14, last);
        let shape = ring_at(ring, SHAPE_Q14, last);
        let q = ring_at(ring, Q_Q10, last);
        xq[h + p] = fit.fitted(x);
        shp[h + p] = shape;
        pulses[p] = output::pulse_of(q);
    }
}
