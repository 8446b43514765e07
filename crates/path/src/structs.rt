// What the paths are made of, under the Rust's names.

// Which of a path's five rings.
pub const RAND_STATE: usize = 0;

pub const Q_Q10: usize = 1;

pub const XQ_Q14: usize = 2;

pub const PRED_Q15: usize = 3;

pub const SHAPE_Q14: usize = 4;

// `NSQ_del_dec_struct` without its long rows.
#[derive(Clone, Copy)]
pub struct Path {
    pub sAR2_Q14: [i32; 24],
    pub LF_AR_Q14: i32,
    pub Diff_Q14: i32,
    pub Seed: i32,
    pub SeedInit: i32,
    pub RD_Q10: i32,
}

// `NSQ_sample_struct`: one of the two candidates of a path at a sample.
#[derive(Clone, Copy)]
pub struct Candidate {
    pub Q_Q10: i32,
    pub RD_Q10: i32,
    pub xq_Q14: i32,
    pub LF_AR_Q14: i32,
    pub Diff_Q14: i32,
    pub sLTP_shp_Q14: i32,
    pub LPC_exc_Q14: i32,
}

// The scalars of a subframe. That they fit one another (`Fits`) is asked by contracts and is no invariant: the definitions make this record of any
// numbers, and theorems speak of those too.
#[derive(Clone, Copy)]
pub struct Fix {
    pub subfr_length: usize,
    pub predictLPCOrder: usize,
    pub shapingLPCOrder: usize,
    pub nStates: usize,
    pub voiced: bool,
    pub offset_Q10: i32,
    pub Lambda_Q10: i32,
    pub lag: usize,
    pub LF_shp_Q14: i32,
    pub Gain_Q16: i32,
    pub inv_gain_Q26: i32,
    pub decisionDelay: usize,
    // where the subframe starts in the frame
    pub base: usize,
    // `sLTP_buf_idx` at its start: where it starts in the work row
    pub buf: usize,
    // whether its first samples are held back: the Rust's `subfr == 0`
    pub first: bool,
}

// The words of a subframe of which only a half is read.
#[derive(Clone, Copy)]
pub struct Halves {
    pub warping_Q16: i32,
    pub Tilt_Q14: i32,
    pub HarmShapeFIRPacked_Q14: i32,
}

// What all paths share at a sample.
#[derive(Clone, Copy)]
pub struct Common {
    pub x_Q10: i32,
    pub LTP_pred_Q14: i32,
    pub n_LTP_Q14: i32,
}

// A path whose generator and shaping filter have moved on, and the filter's output.
#[derive(Clone, Copy)]
pub struct Moved {
    pub own: Path,
    pub n_AR_Q14: i32,
}

// The same of all paths. Two rows and not four of `Moved`: the definition `moves` is this record.
#[derive(Clone, Copy)]
pub struct Moves {
    pub owns: [Path; 4],
    pub n_AR_Q14: [i32; 4],
}

// What a candidate is worked out from, but its level and its cost.
#[derive(Clone, Copy)]
pub struct Terms {
    pub x_Q10: i32,
    pub LTP_pred_Q14: i32,
    pub LPC_pred_Q14: i32,
    pub n_AR_Q14: i32,
    pub n_LF_Q14: i32,
    pub Seed: i32,
}

// Whether a path is replaced, which, and by which. Not an `Option`: the definition `swap_of` is this record, and theorems of `full_copy`, `heard` and
// `belongs` read its flag.
#[derive(Clone, Copy)]
pub struct Swap {
    pub yes: bool,
    pub to: usize,
    pub by: usize,
}

// The words of the sample that is a decision delay old, as a sample leaves them.
#[derive(Clone, Copy)]
pub struct Sampled {
    pub Q_Q10: i32,
    pub Xq_Q14: i32,
    pub Pred_Q15: i32,
    pub Shape_Q14: i32,
}

// All paths with their long rows, `psDelDec`: their short words, their LPC words, their five rings. L and R are always the rows named here;
// as parameters they let `of` make the struct, since the check doesn't follow a literal with a row of rows in it.
#[derive(Clone, Copy, Drop)]
pub struct States<L: Drop = [[i32; 96]; 4], R: Drop = [[[i32; 40]; 5]; 4]> {
    pub owns: [Path; 4],
    pub lpcs: L,
    pub rings: R,
}

// A subframe in work, but its pulses, which are the caller's. C is always the row named here, as in `States`.
#[derive(Clone, Copy, Drop)]
pub struct Work<C: Drop = [[i8; 320]; 4]> {
    pub states: States,
    // the pulses that each path has chosen in this frame
    pub chosen: C,
    pub sLTP_Q15: [i32; 640],
    pub delayedGain_Q10: [i32; 40],
    // below 40 by contracts, as for `Fix`
    pub smpl_buf_idx: usize,
    pub xq: [i16; 640],
    pub sLTP_shp_Q14: [i32; 640],
}

// A frame in work: a subframe's rows, the filtered history, and the gain of the subframe before.
#[derive(Clone, Copy)]
pub struct Frame {
    pub work: Work,
    pub sLTP: [i16; 640],
    pub prev: i32,
}

// A subframe's coefficients (prediction, long-term prediction, shaping), and the words of which only a half is read.
#[derive(Clone, Copy)]
pub struct Coefs<'a> {
    pub a: &'a [i16],
    pub b: &'a [i16],
    pub ar: &'a [i16],
    pub half: Halves,
}
