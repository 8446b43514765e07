// A path after a change of gain.
ghost use Rattle.std.specs.Prelude.{◌≡◌, ◌+◌, ◌≤◌, length};
ghost use Rattle.path.specs.Taken.{whole};
ghost use Rattle.path.specs.Scaled.{scaled_words, scaled_path};

use crate::structs::{PRED_Q15, Path, SHAPE_Q14};
use products::product;

// The words a .. a + m of a row times the change of gain.
pub fn scaled_words(row: &mut [i32], adj: i32, a: usize, m: usize)
    requires { a + m ≤ length row.old }
    ensures { row.new ≡ scaled_words adj a m row.old }
{
    // By place: tried over `&mut row[a..a + m]`; that the whole row, put together again, is the promised one stayed open.
    for j in 0..m {
        row[a + j] = product::smulww(adj, row[a + j]);
    }
}

// All filter words of a path.
fn scaled_filter(words: &mut [i32; 24], adj: i32)
    ensures { words.new ≡ scaled_words adj 0 24 words.old }
{
    scaled_words(words, adj, 0, 24);
}

impl Path {
    // A path with all its words, scaled.
    pub fn scaled(mut self, lpc: &mut [i32; 96], ring: &mut [[i32; 40]; 5], adj: i32) -> Self
        ensures { whole result lpc.new ring.new ≡ scaled_path adj (whole self lpc.old ring.old) }
    {
        self.LF_AR_Q14 = product::smulww(adj, self.LF_AR_Q14);
        self.Diff_Q14 = product::smulww(adj, self.Diff_Q14);
        scaled_words(lpc, adj, 0, 16);
        scaled_filter(&mut self.sAR2_Q14, adj);
        scaled_words(&mut ring[PRED_Q15], adj, 0, 40);
        scaled_words(&mut ring[SHAPE_Q14], adj, 0, 40);
        self
    }
}
