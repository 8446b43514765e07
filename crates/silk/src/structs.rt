// The settings of a call, and the quantiser's state from one frame to the next, by the names of `structs.rs`.
ghost use Rattle.std.specs.Prelude.{◌≡◌};
ghost use Rattle.silk.specs.State.{fresh_state};

// What the Rust reads of `silk_encoder_state` and `SideInfoIndices`, and the two numbers that its call takes beside them:
// the twelve settings of docs/RULES.md, in its order.
#[derive(Clone, Copy)]
pub struct Settings {
    pub subfr_length: i32,
    pub nb_subfr: i32,
    pub predictLPCOrder: i32,
    pub shapingLPCOrder: i32,
    pub nStatesDelayedDecision: i32,
    pub warping_Q16: i32,
    pub signalType: i32,
    pub quantOffsetType: i32,
    pub NLSFInterpCoef_Q2: i32,
    pub Seed: i32,
    pub Lambda_Q10: i32,
    pub LTP_scale_Q14: i32,
}

// The words of `silk_nsq_state` that the quantiser names: the history of decoded samples and of shaping words, the
// words of the two filters, and what one frame leaves for the next.
#[derive(Clone, Copy)]
pub struct NsqState {
    pub xq: [i16; NsqState::XQ_LEN],
    pub sLTP_shp_Q14: [i32; NsqState::LTP_SHP_LEN],
    pub sLPC_Q14: [i32; NsqState::LPC_LEN],
    pub sAR2_Q14: [i32; NsqState::AR2_LEN],
    pub sLF_AR_shp_Q14: i32,
    pub sDiff_shp_Q14: i32,
    pub lagPrev: i32,
    pub sLTP_buf_idx: i32,
    pub sLTP_shp_buf_idx: i32,
    pub prev_gain_Q16: i32,
    pub rewhite_flag: i32,
}

impl NsqState {
    // The lengths of the four rows. The first two have room for 320 words of history and 320 of a frame, the third for
    // 16 words and a subframe of 80.
    pub const XQ_LEN: usize = 640;

    pub const LTP_SHP_LEN: usize = 640;

    pub const LPC_LEN: usize = 96;

    pub const AR2_LEN: usize = 24;

    // The lag and the gain from which a fresh state starts. The lag is good for every subframe length; 0 would say that there is none.
    pub const FRESH_LAG: i32 = 100;

    pub const FRESH_GAIN_Q16: i32 = 65536;

    // The state before the first frame.
    pub fn fresh() -> Self
        ensures { result ≡ fresh_state }
    {
        Self {
            xq: [0; 640],
            sLTP_shp_Q14: [0; 640],
            sLPC_Q14: [0; 96],
            sAR2_Q14: [0; 24],
            sLF_AR_shp_Q14: 0,
            sDiff_shp_Q14: 0,
            lagPrev: Self::FRESH_LAG,
            sLTP_buf_idx: 0,
            sLTP_shp_buf_idx: 0,
            prev_gain_Q16: Self::FRESH_GAIN_Q16,
            rewhite_flag: 0,
        }
    }
}
