// One path.
ghost use Rattle.std.specs.Prelude.{◌≡◌, ◌+◌, ◌<◌, ◌≤◌, length};
ghost use Rattle.path.specs.Data.{no_candidate};
ghost use Rattle.path.specs.Path.{moved as moved_z, candidate_of, terms_of, residual_of, pair_of, pair as pair_z};
ghost use Rattle.path.specs.Taken.{raised as raised_z, taken as taken_z, whole};

use crate::structs::{
    Candidate, Common, Fix, Halves, Moved, PRED_Q15, Path, Q_Q10, RAND_STATE, SHAPE_Q14, Terms,
    XQ_Q14,
};
use choice::candidate;
use fixed::wrap;
use noise::noise_terms;
use residuals::residual;
use seeds::generator;
use shaping::short_prediction;
use shifts::shift;
use warped::warped_filter;

impl Candidate {
    pub fn zero() -> Self
        ensures { result ≡ no_candidate }
    {
        Self {
            Q_Q10: 0,
            RD_Q10: 0,
            xq_Q14: 0,
            LF_AR_Q14: 0,
            Diff_Q14: 0,
            sLTP_shp_Q14: 0,
            LPC_exc_Q14: 0,
        }
    }

    // The candidate of level q with the total cost rd.
    pub fn of(t: Terms, q: i32, rd: i32) -> Self
        ensures { result ≡ candidate_of t q rd }
    {
        let exc = wrap::add32(residual::signed_excitation(t.Seed, q), t.LTP_pred_Q14);
        let xq = wrap::add32(exc, t.LPC_pred_Q14);
        let diff = wrap::sub32(xq, shift::shl32(t.x_Q10, 4));
        let lf = wrap::sub32(diff, t.n_AR_Q14);
        let shp = wrap::sub32(lf, t.n_LF_Q14);
        Self {
            Q_Q10: q,
            RD_Q10: rd,
            xq_Q14: xq,
            LF_AR_Q14: lf,
            Diff_Q14: diff,
            sLTP_shp_Q14: shp,
            LPC_exc_Q14: exc,
        }
    }

    // With the penalty 0x7fffffff >> 4.
    pub fn raised(mut self) -> Self
        ensures { result ≡ raised_z self }
    {
        self.RD_Q10 = wrap::add32(self.RD_Q10, 134217727);
        self
    }
}

impl Terms {
    // The residual by which the level is chosen.
    fn residual_of(self, n_LTP_Q14: i32) -> i32
        ensures { result ≡ residual_of self n_LTP_Q14 }
    {
        let r = noise::residual::residual(
            self.n_AR_Q14,
            self.n_LF_Q14,
            n_LTP_Q14,
            self.LPC_pred_Q14,
            self.x_Q10,
        );
        residual::signed_residual(self.Seed, r)
    }

    // The two candidates of a path whose running cost is rd.
    fn pair_of(self, f: Fix, n_LTP_Q14: i32, rd: i32) -> [Candidate; 2]
        ensures { result ≡ pair_of f n_LTP_Q14 rd self }
    {
        let r = self.residual_of(n_LTP_Q14);
        let c = candidate::candidates(r, f.Lambda_Q10, f.offset_Q10);
        let first = Candidate::of(self, c.first_level, wrap::add32(rd, c.first_cost));
        let second = Candidate::of(self, c.second_level, wrap::add32(rd, c.second_cost));
        [first, second]
    }
}

impl Path {
    // The generator and the warped filter move on; with the filter's output.
    pub fn moved(mut self, f: Fix, h: Halves, ar: &[i16]) -> Moved
        requires { (1 ≤ f.«shapingLPCOrder») × ((f.«shapingLPCOrder» ≤ 24) × (f.«shapingLPCOrder» ≤ length ar.now)) }
        ensures { result ≡ moved_z f h ar.now self }
    {
        let diff = self.Diff_Q14;
        let order = f.shapingLPCOrder;
        let warping = wrap::low16(h.warping_Q16);
        let n = warped_filter::warped_filter(&mut self.sAR2_Q14, ar, order, warping, diff);
        let n_AR = noise_terms::n_AR(n, self.LF_AR_Q14, h.Tilt_Q14);
        self.Seed = generator::rand(self.Seed);
        Moved {
            own: self,
            n_AR_Q14: n_AR,
        }
    }

    // What the candidates of a path that has moved on are worked out from. Nine parameters: what a sample shares and what one path has, made and used
    // in one place.
    fn terms(
        self,
        f: Fix,
        a: &[i16],
        s: Common,
        i: usize,
        r0: usize,
        n_AR_Q14: i32,
        lpc: &[i32; 96],
        ring: &[[i32; 40]; 5],
    ) -> Terms
        requires { (i < 80) × ((r0 < 40) × ((f.«predictLPCOrder» ≤ 16) × (16 ≤ length a.now))) }
        ensures { result ≡ terms_of f a.now s i r0 self n_AR_Q14 lpc.now ring.now }
    {
        let order = f.predictLPCOrder;
        let pred = short_prediction::silk_noise_shape_quantizer_short_prediction(
            lpc,
            15 + i,
            a,
            order,
        );
        let shape = ring[SHAPE_Q14][r0];
        let n_LF = noise_terms::n_LF(shape, self.LF_AR_Q14, f.LF_shp_Q14);
        Terms {
            x_Q10: s.x_Q10,
            LTP_pred_Q14: s.LTP_pred_Q14,
            LPC_pred_Q14: shift::shl32(pred, 4),
            n_AR_Q14,
            n_LF_Q14: n_LF,
            Seed: self.Seed,
        }
    }

    // The two candidates of a path that has moved on, of the same.
    pub fn pair(
        self,
        f: Fix,
        a: &[i16],
        s: Common,
        i: usize,
        r0: usize,
        n_AR_Q14: i32,
        lpc: &[i32; 96],
        ring: &[[i32; 40]; 5],
    ) -> [Candidate; 2]
        requires { (i < 80) × ((r0 < 40) × ((f.«predictLPCOrder» ≤ 16) × (16 ≤ length a.now))) }
        ensures { result ≡ pair_z f a.now s i r0 self n_AR_Q14 lpc.now ring.now }
    {
        let t = self.terms(f, a, s, i, r0, n_AR_Q14, lpc, ring);
        t.pair_of(f, s.n_LTP_Q14, self.RD_Q10)
    }

    // The path takes candidate c at sample i of its subframe, at place r of its rings.
    pub fn taken(
        mut self,
        lpc: &mut [i32; 96],
        ring: &mut [[i32; 40]; 5],
        c: Candidate,
        i: usize,
        r: usize,
    ) -> Self
        requires { (16 + i < 96) × (r < 40) }
        ensures { whole result lpc.new ring.new ≡ taken_z c i r (whole self lpc.old ring.old) }
    {
        let q = c.Q_Q10;
        let xq = c.xq_Q14;
        let shape = c.sLTP_shp_Q14;
        let pred = shift::shl32(c.LPC_exc_Q14, 1);
        let seed = residual::seed_with(self.Seed, q);
        lpc[16 + i] = xq;
        ring[XQ_Q14][r] = xq;
        ring[Q_Q10][r] = q;
        ring[PRED_Q15][r] = pred;
        ring[SHAPE_Q14][r] = shape;
        ring[RAND_STATE][r] = seed;
        self.LF_AR_Q14 = c.LF_AR_Q14;
        self.Diff_Q14 = c.Diff_Q14;
        self.Seed = seed;
        self.RD_Q10 = c.RD_Q10;
        self
    }
}
