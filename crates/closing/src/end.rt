// The end of a frame: the last flush, what is left for the next one, and the report.
ghost use Rattle.std.specs.Prelude.{◌≡◌, ◌+◌, ◌-◌, ◌*◌, ◌<◌, ◌≤◌, length, get_or, [], pos};
ghost use Rattle.fixed.specs.Iter.{either};
ghost use Rattle.path.specs.Data.{no_path};
ghost use Rattle.steps.specs.Call.{since_by, rewhites_by};
ghost use Rattle.steps.specs.Frame.{left_by, done_of, ended_by};
ghost use Rattle.steps.specs.Lent.{framed_at};
ghost use Rattle.steps.specs.Report.{differ, best_row};

use crate::report;
use edges::ends;
use edges::ends::Fit;
use path::structs::Frame;
use silk::structs::NsqState;
use steps::structs::{Coded, Given};
use subframes::scalars;
use tails::tail;

// The length of k subframes of l samples.
fn times(k: usize, l: usize) -> usize
    requires { (k ≤ 4) × (l ≤ 80) }
    ensures { (result ≡ k * l) × (result ≤ 320) }
{
    k * l
}

// Where the frame ends in the work row: `sLTP_buf_idx`.
fn work_end(g: Given) -> i32
    requires { ((0 < g.nb_subfr) × (g.nb_subfr ≤ 4)) × (g.subfr_length ≤ 80) }
    ensures { result ≡ pos (4 * g.subfr_length + (since_by g (g.nb_subfr - 1) + 1) * g.subfr_length) }
{
    let since = scalars::since(g, g.nb_subfr - 1);
    let done = times(since + 1, g.subfr_length);
    (4 * g.subfr_length + done) as i32
}

// Where it ends in the shaping words: `sLTP_shp_buf_idx`.
fn shaping_end(g: Given) -> i32
    requires { (g.nb_subfr ≤ 4) × (g.subfr_length ≤ 80) }
    ensures { result ≡ pos (4 * g.subfr_length + g.nb_subfr * g.subfr_length) }
{
    let all = times(g.nb_subfr, g.subfr_length);
    (4 * g.subfr_length + all) as i32
}

// Whether the last subframe was rewhitened: `rewhite_flag`, chosen as in the definition.
fn rewhite_flag(g: Given) -> i32
    requires { 0 < g.nb_subfr }
    ensures { result ≡ either (rewhites_by g (g.nb_subfr - 1)) (pos 1) (pos 0) }
{
    if scalars::rewhites(g, g.nb_subfr - 1) {
        1
    } else {
        0
    }
}

// The state that is left by the last lag, the LPC words of the state before, and the frame after the last flush with its winner w.
fn left(g: Given, lag: i32, words: [i32; 96], t: &Frame, w: usize) -> NsqState
    requires { (((0 < g.nb_subfr) × (g.nb_subfr ≤ 4)) × (g.subfr_length ≤ 80)) × (w < 4) }
    ensures { result ≡ left_by g lag words t.now.prev (get_or t.now.work.states.owns w no_path) (get_or t.now.work.states.lpcs w [])
        t.now.work.xq t.now.work.sLTP_shp_Q14 }
{
    let all = times(g.nb_subfr, g.subfr_length);
    let kept = 4 * g.subfr_length;
    let mut history = t.work.xq;
    let mut shaping = t.work.sLTP_shp_Q14;
    tail::moved_down16(&mut history, all, kept);
    tail::moved_down32(&mut shaping, all, kept);
    let lpc = t.work.states.lpcs[w];
    let lpc_words = tail::words_from(words, lpc, g.subfr_length);
    let p = t.work.states.owns[w];
    let ar_words = p.sAR2_Q14;
    let gain = t.prev;
    NsqState {
        xq: history,
        sLTP_shp_Q14: shaping,
        sLPC_Q14: lpc_words,
        sAR2_Q14: ar_words,
        sLF_AR_shp_Q14: p.LF_AR_Q14,
        sDiff_shp_Q14: p.Diff_Q14,
        lagPrev: lag,
        sLTP_buf_idx: work_end(g),
        sLTP_shp_buf_idx: shaping_end(g),
        prev_gain_Q16: gain,
        rewhite_flag: rewhite_flag(g),
    }
}

// The winner's last samples handed out, and what is left.
pub fn ended(
    mut t: Frame,
    pulses: &mut [i8],
    words: [i32; 96],
    last: i32,
    lag: i32,
    g: Given,
) -> Coded
    requires { (((0 < g.nb_subfr) × (g.nb_subfr ≤ 4)) × (g.subfr_length ≤ 80)) × (((0 < g.nStates) × (g.nStates ≤ 4))
        × ((g.delay ≤ g.subfr_length) × ((g.nb_subfr * g.subfr_length ≤ length pulses.old) × (t.work.smpl_buf_idx < 40)))) }
    ensures words { done_of result.seed result.state pulses.new ≡ ended_by g last lag words (framed_at t pulses.old) }
    ensures report { result.report ≡ pos (differ pulses.new (best_row t.work.states.owns g.nStates t.work.chosen) (g.nb_subfr * g.subfr_length)) }
{
    let owns = t.work.states.owns;
    let w = ends::best(owns, g.nStates);
    let own = owns[w];
    let all = times(g.nb_subfr, g.subfr_length);
    let start = 4 * g.subfr_length;
    let work = &mut t.work;
    ends::flushed(
        &mut work.xq,
        &mut work.sLTP_shp_Q14,
        pulses,
        &work.states.rings[w],
        Fit::Last(last),
        start,
        g.delay,
        all,
        work.smpl_buf_idx,
    );
    let unlike = report::differ(pulses, &t.work.chosen[w], all);
    let count = unlike as i32;
    let state = left(g, lag, words, &t, w);
    Coded {
        seed: own.SeedInit,
        state,
        report: count,
    }
}
