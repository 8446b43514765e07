// What the definition is spoken over beside a path's own words: the settings of a call as counts, what comes before a subframe, and what
// a call hands back.
use refusal_rules::answer::Refusal;
use silk::structs::NsqState;

// The settings of an accepted call, turned once into counts, and what they decide for the whole frame.
#[derive(Clone, Copy)]
pub struct Given {
    pub subfr_length: usize,
    pub nb_subfr: usize,
    pub predictLPCOrder: usize,
    pub shapingLPCOrder: usize,
    pub nStates: usize,
    pub voiced: bool,
    pub interpolated: bool,
    pub offset_Q10: i32,
    pub Lambda_Q10: i32,
    pub LTP_scale_Q14: i32,
    pub warping_Q16: i32,
    pub seed: usize,
    pub lagPrev: usize,
    // the decision delay
    pub delay: usize,
}

// What comes before a subframe's samples. Flags beside their values, not `Option`s: the definition `prior_by` is this record, and theorems of
// `full_copy` read its flags.
#[derive(Clone, Copy)]
pub struct Prior {
    // whether it is the second one to be rewhitened, and the gain of the flush
    pub again: bool,
    pub gain1: i32,
    // whether it is rewhitened, and by what
    pub rewhite: bool,
    pub inv: i32,
}

// The rows that a call lends to be read.
#[derive(Clone, Copy)]
pub struct Inputs<'a> {
    pub x: &'a [i16],
    pub pred: &'a [i16],
    pub long: &'a [i16],
    pub ar: &'a [i16],
    pub tilt: &'a [i32],
    pub harm: &'a [i32],
    pub lf: &'a [i32],
    pub gains: &'a [i32],
    pub lags: &'a [i32],
}

// What an accepted call hands back beside its pulses.
#[derive(Clone, Copy)]
pub struct Coded {
    pub seed: i32,
    pub state: NsqState,
    // at how many places the pulses differ from those that the final winner chose itself
    pub report: i32,
}

// What a refused call hands back: why, and the seed and the state that it was given.
#[derive(Clone, Copy)]
pub struct Refused {
    pub why: Refusal,
    pub seed: i32,
    pub state: NsqState,
}
