// Settings and state as rows: which word stands where.
ghost use Rattle.std.specs.Prelude.{◌≡◌, length};
ghost use Rattle.plain_rows.specs.Layout.{state_of, scalars_of, words_of};

use silk::structs::NsqState;

// A part of a row, as an array of its length.
fn part<T: Copy, const N: usize>(row: &[T]) -> [T; N]
    requires { length row.now ≡ N }
    ensures { result ≡ row.now }
{
    <[T; N]>::try_from(row).unwrap()
}

// The state that the two rows hold.
pub fn state_of(samples: &[i16], words: &[i32]) -> NsqState
    requires { (length samples.now ≡ 640) × (length words.now ≡ 767) }
    ensures { result ≡ state_of samples.now words.now }
{
    NsqState {
        xq: part(samples),
        sLTP_shp_Q14: part(&words[0..640]),
        sLPC_Q14: part(&words[640..736]),
        sAR2_Q14: part(&words[736..760]),
        sLF_AR_shp_Q14: words[760],
        sDiff_shp_Q14: words[761],
        lagPrev: words[762],
        sLTP_buf_idx: words[763],
        sLTP_shp_buf_idx: words[764],
        prev_gain_Q16: words[765],
        rewhite_flag: words[766],
    }
}

// The seven words of a state that stand alone.
fn scalars_of(state: NsqState) -> [i32; 7]
    ensures { result ≡ scalars_of state }
{
    [
        state.sLF_AR_shp_Q14,
        state.sDiff_shp_Q14,
        state.lagPrev,
        state.sLTP_buf_idx,
        state.sLTP_shp_buf_idx,
        state.prev_gain_Q16,
        state.rewhite_flag,
    ]
}

// The words of a state, laid into a row of 767.
pub fn lay_words(state: NsqState, words: &mut [i32])
    requires { length words.old ≡ 767 }
    ensures { words.new ≡ words_of state }
{
    words[0..640].copy_from_slice(&state.sLTP_shp_Q14);
    words[640..736].copy_from_slice(&state.sLPC_Q14);
    words[736..760].copy_from_slice(&state.sAR2_Q14);
    words[760..767].copy_from_slice(&scalars_of(state));
}

// A state's samples, laid into a row of 640.
pub fn lay_samples(xq: [i16; 640], samples: &mut [i16])
    requires { length samples.old ≡ 640 }
    ensures { samples.new ≡ xq }
{
    samples.copy_from_slice(&xq);
}
