// Digests of rows.
ghost use Rattle.std.specs.Prelude.{◌+◌, ◌<◌, ◌≤◌, length};

use digests::fnv::Fnv32;
use path::structs::{Path, Work};
use prints::output::Output;
use std::fmt::Write;

// The digest with a row more.
fn words<T: Copy + Into<i32>>(start: Fnv32, row: &[T]) -> Fnv32 {
    row.iter().fold(start, |h, w| h.word((*w).into()))
}

fn path(start: Fnv32, p: &Path) -> Fnv32 {
    let rest = [p.LF_AR_Q14, p.Diff_Q14, p.Seed, p.SeedInit, p.RD_Q10];
    words(words(start, &p.sAR2_Q14), &rest)
}

// The paths' short words, and before them the ring's place. Here and below a write that fails is passed over: the run goes on to its end.
pub fn print_paths(ps: [Path; 4], at: usize)
    requires { at < 40 }
{
    let h = ps.iter().fold(Fnv32::new().word(at as i32), path);
    let _ = write!(Output, "{:08x} ", h.sum);
}

// The LPC words of a path that count after a subframe of l samples: its first 16, and the 16 behind the samples.
fn ends_of(start: Fnv32, row: &[i32], l: usize) -> Fnv32
    requires { (16 ≤ length row.now) × (l + 16 ≤ length row.now) }
{
    words(words(start, &row[..16]), &row[l..l + 16])
}

fn of_lpc(lpc: &[[i32; 96]; 4], l: usize) -> Fnv32
    requires { l ≤ 80 }
{
    lpc.iter().fold(Fnv32::new(), |h, row| ends_of(h, row, l))
}

fn of_rings(ring: &[[[i32; 40]; 5]; 4]) -> Fnv32 {
    let mut h = Fnv32::new();
    for rings in ring {
        for row in rings {
            h = words(h, row);
        }
    }
    h
}

fn of_row<T: Copy + Into<i32>>(row: &[T]) -> u32 {
    words(Fnv32::new(), row).sum
}

// All rows of a subframe of l samples, which end the line.
pub fn print_rows(l: usize, w: &Work, pulses: &[i8; 320])
    requires { l ≤ 80 }
{
    let lpc = of_lpc(&w.states.lpcs, l).sum;
    let ring = of_rings(&w.states.rings).sum;
    let _ = write!(Output, "{lpc:08x} {ring:08x} ");
    let _ = write!(
        Output,
        "{:08x} {:08x} ",
        of_row(&w.sLTP_Q15),
        of_row(&w.delayedGain_Q10)
    );
    let _ = writeln!(
        Output,
        "{:08x} {:08x} {:08x}",
        of_row(&w.xq),
        of_row(&w.sLTP_shp_Q14),
        of_row(pulses)
    );
}
