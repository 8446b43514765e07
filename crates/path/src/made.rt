// The structs of a subframe in work, made of their rows.
ghost use Rattle.std.specs.Prelude.{◌≡◌};

use crate::structs::{Path, States, Work};

impl<L: Drop, R: Drop> States<L, R> {
    // All paths of their short words, LPC words and rings.
    pub fn of(owns: [Path; 4], lpcs: L, rings: R) -> Self
        ensures { result ≡ record { owns = owns; lpcs = lpcs; rings = rings } }
    {
        Self { owns, lpcs, rings }
    }
}

impl<C: Drop> Work<C> {
    // A subframe in work of its rows.
    pub fn of(
        states: States,
        chosen: C,
        sLTP_Q15: [i32; 640],
        delayedGain_Q10: [i32; 40],
        smpl_buf_idx: usize,
        xq: [i16; 640],
        sLTP_shp_Q14: [i32; 640],
    ) -> Self
        ensures { result ≡ record {
          states = states;
          chosen = chosen;
          sLTP_Q15 = sLTP_Q15;
          delayedGain_Q10 = delayedGain_Q10;
          smpl_buf_idx = smpl_buf_idx;
          xq = xq;
          sLTP_shp_Q14 = sLTP_shp_Q14;
        } }
    {
        Self {
            states,
            chosen,
            sLTP_Q15,
            delayedGain_Q10,
            smpl_buf_idx,
            xq,
            sLTP_shp_Q14,
        }
    }
}
