// A state that a call is given: fresh, the one before, or its words in the list.
use crate::input;
use fixed::wrap;
use silk::structs::NsqState;

// A state, and the seed that the Rust's state holds beside it.
#[derive(Clone, Copy)]
pub struct Held {
    pub state: NsqState,
    pub rand_seed: i32,
}

impl Held {
    pub fn fresh() -> Held {
        Held {
            state: NsqState::fresh(),
            rand_seed: 0,
        }
    }

    // The 1408 words of a state.
    fn given() -> Held {
        let mut state = NsqState::fresh();
        input::fill(&mut state.xq, wrap::low16);
        input::fill(&mut state.sLTP_shp_Q14, |z| z);
        input::fill(&mut state.sLPC_Q14, |z| z);
        input::fill(&mut state.sAR2_Q14, |z| z);
        state.sLF_AR_shp_Q14 = input::number();
        state.sDiff_shp_Q14 = input::number();
        state.lagPrev = input::number();
        state.sLTP_buf_idx = input::number();
        state.sLTP_shp_buf_idx = input::number();
        let rand_seed = input::number();
        state.prev_gain_Q16 = input::number();
        state.rewhite_flag = input::number();
        Held { state, rand_seed }
    }

    // The state that the next call starts from: `state fresh`, `state prev` or `state given` with its words.
    pub fn chosen(self) -> Held {
        input::number();
        let mode = input::byte();
        input::number_from(mode);
        match mode {
            b'g' => Held::given(),
            b'p' => self,
            _ => Held::fresh(),
        }
    }
}
