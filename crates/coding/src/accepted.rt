// An accepted call: the whole frame.
ghost use Rattle.std.specs.Prelude.{◌≡◌, ◌-◌, ◌*◌, ◌<◌, ◌≤◌, length, replicate, pos, ◌≤ℤ◌};
ghost use Rattle.fixed.specs.Row.{word};
ghost use Rattle.path.specs.Data.{paths, paths_of};
ghost use Rattle.refusal_rules.specs.Good.{Good};
ghost use Rattle.silk.specs.State.{zeros};
ghost use Rattle.steps.specs.Among.{full_copy};
ghost use Rattle.steps.specs.Begin.{zero_path, zero_lpcs, zero_rings, begun};
ghost use Rattle.steps.specs.Call.{Sound};
ghost use Rattle.steps.specs.Carried.{no_rows};
ghost use Rattle.steps.specs.Frame.{done_of, ended_by, frame as frame_z};
ghost use Rattle.steps.specs.Lent.{framed_at, call_in, Stocked_in, run_in};
ghost use Rattle.steps.specs.Report.{report_from, frame_report};
ghost use Rattle.steps.specs.Sizes.{sizes_of};

use calls::{begin, call};
use closing::end;
use path::structs::{Frame, Work};
use running::run;
use silk::structs::{NsqState, Settings};
use steps::structs::{Coded, Given, Inputs};

// The shaping word before the frame, of a history of 4l words.
fn last_shape(shp: [i32; 640], l: usize) -> i32
    requires { (0 < l) × (l ≤ 80) }
    ensures { result ≡ word shp (4 * l - 1) }
{
    shp[4 * l - 1]
}

// The last of n words.
fn last_of(row: &[i32], n: usize) -> i32
    requires { (0 < n) × (n ≤ length row.now) }
    ensures { result ≡ word row.now (n - 1) }
{
    row[n - 1]
}

// All subframes and the end, from any frame in work on; `words` are the LPC words of the state before. The report is of what the paths chose from there on,
// so that it asks for a frame in which they have chosen nothing.
fn rest(t: &mut Frame, pulses: &mut [i8], r: Inputs<'_>, words: [i32; 96], g: Given) -> Coded
    requires { ((Sound g r.lags.now × Stocked_in g r) × (g.nb_subfr * g.subfr_length ≤ length pulses.old))
        × ((pos 1 ≤ℤ t.old.prev) × (t.old.work.smpl_buf_idx < 40)) }
    ensures words { done_of result.seed result.state pulses.new
        ≡ ended_by g (word r.entry.gains.now (g.nb_subfr - 1)) (word r.entry.lags.now (g.nb_subfr - 1)) words
        (run_in full_copy g r.entry g.nb_subfr (framed_at t.old pulses.old)) }
    ensures report { t.old.work.chosen ≡ no_rows → result.report
        ≡ pos (report_from full_copy g r.entry.x.now r.entry.pred.now r.entry.long.now r.entry.ar.now r.entry.tilt.now r.entry.harm.now r.entry.lf.now
        r.entry.gains.now r.entry.lags.now (framed_at t.old pulses.old) pulses.new) }
{
    run::run(t, pulses, r, g);
    let last = last_of(r.gains, g.nb_subfr);
    let lag = last_of(r.lags, g.nb_subfr);
    end::ended(*t, pulses, words, last, lag, g)
}

// The frame before its first subframe: the paths begun, the histories as the state has them, the other rows zero.
fn opened(state: NsqState, g: Given) -> Frame
    requires { ((0 < g.subfr_length) × (g.subfr_length ≤ 80)) × ((g.seed < 4) × (g.nStates ≤ 4)) }
    ensures paths { paths_of result.work.states
        ≡ begun state.sAR2_Q14 state.sLF_AR_shp_Q14 state.sDiff_shp_Q14 state.sLPC_Q14
        (word state.sLTP_shp_Q14 (4 * g.subfr_length - 1)) g.seed g.nStates
        (paths (replicate 4 zero_path) zero_lpcs zero_rings) }
    ensures zero { ((result.work.chosen ≡ no_rows) × (result.work.sLTP_Q15 ≡ zeros 640))
        × ((result.work.delayedGain_Q10 ≡ zeros 40) × ((result.work.smpl_buf_idx ≡ 0) × (result.sLTP ≡ zeros 640))) }
    ensures kept { (result.work.xq ≡ state.xq) × ((result.work.sLTP_shp_Q14 ≡ state.sLTP_shp_Q14) × (result.prev ≡ state.prev_gain_Q16)) }
{
    let shp = state.sLTP_shp_Q14;
    let shape = last_shape(shp, g.subfr_length);
    let mut states = begin::zero_states();
    begin::start_paths(
        state.sAR2_Q14,
        state.sLF_AR_shp_Q14,
        state.sDiff_shp_Q14,
        state.sLPC_Q14,
        shape,
        g.seed,
        g.nStates,
        &mut states,
    );
    let work = Work::of(states, [[0; 320]; 4], [0; 640], [0; 40], 0, state.xq, shp);
    Frame {
        work,
        sLTP: [0; 640],
        prev: state.prev_gain_Q16,
    }
}

// The frame: the paths' start, all subframes, the end.
pub fn coded(s: Settings, state: NsqState, r: Inputs<'_>, pulses: &mut [i8]) -> Coded
    requires { Good s (sizes_of (call_in s state r) r.x.now pulses.old) state.lagPrev state.prev_gain_Q16
        r.gains.now r.lags.now }
    ensures words { done_of result.seed result.state pulses.new ≡ frame_z full_copy (call_in s state r.entry) r.entry.x.now pulses.old }
    ensures report { result.report ≡ pos (frame_report full_copy (call_in s state r.entry) r.entry.x.now pulses.old) }
{
    let g = call::given_of(s, state.lagPrev, r.lags);
    let mut t = opened(state, g);
    rest(&mut t, pulses, r, state.sLPC_Q14, g)
}
