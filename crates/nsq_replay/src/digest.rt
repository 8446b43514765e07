// The digests of a state: of the words that count, and of all of them.
use digests::fnv::Fnv64;
use silk::structs::NsqState;

// With the first n words of a row more.
fn words<T: Copy + Into<i32>>(start: Fnv64, row: &[T], n: usize) -> Fnv64 {
    row.iter().take(n).fold(start, |h, w| h.word((*w).into()))
}

// The first words of a state's rows, m of each history and l of the filter's, and then the rest of its words.
fn of_state(state: &NsqState, m: usize, l: usize, rest: &[i32]) -> Fnv64 {
    let xq = words(Fnv64::new(), &state.xq, m);
    let shp = words(xq, &state.sLTP_shp_Q14, m);
    let lpc = words(shp, &state.sLPC_Q14, l);
    let ar2 = words(lpc, &state.sAR2_Q14, 24);
    words(ar2, rest, rest.len())
}

// The words that count: of each history four subframes of l samples.
pub fn counting(state: &NsqState, l: usize) -> Fnv64 {
    let rest = [
        state.sLF_AR_shp_Q14,
        state.sDiff_shp_Q14,
        state.lagPrev,
        state.prev_gain_Q16,
    ];
    of_state(state, l.saturating_mul(4), 16, &rest)
}

// All words of the state, with the seed that the Rust's state holds beside them and passes through.
pub fn full(state: &NsqState, rand_seed: i32) -> Fnv64 {
    let rest = [
        state.sLF_AR_shp_Q14,
        state.sDiff_shp_Q14,
        state.lagPrev,
        state.sLTP_buf_idx,
        state.sLTP_shp_buf_idx,
        rand_seed,
        state.prev_gain_Q16,
        state.rewhite_flag,
    ];
    of_state(state, 640, 96, &rest)
}
