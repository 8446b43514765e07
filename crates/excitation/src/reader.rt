// The excitation of a frame.
ghost use Rattle.std.specs.Prelude.{◌≡◌, ◌≤◌, ◌^◌, pos, length, ◌≤ℤ◌};
ghost use Rattle.fixed.specs.Wrap.{mod_z};
ghost use Rattle.rfc6716.specs.Excitation.{offset_Q23 as offset_z, excitation as excitation_z};
ghost use Rattle.excitation.specs.Reading.{heard, reading};

use crate::answer::Answer;
use crate::{pulse, refusals};
use limits::count;

// The section's table: inactive, unvoiced and voiced frames, each for the offset types low and high.
const OFFSETS_Q23: [[i32; 2]; 3] = [[25, 60], [25, 60], [8, 25]];

// The offset by signal type and offset type.
fn offset_of(signal_type: usize, offset_type: usize) -> i32
    requires { (signal_type ≤ 2) × (offset_type ≤ 1) }
    ensures { result ≡ offset_z signal_type offset_type }
{
    OFFSETS_Q23[signal_type][offset_type]
}

// One value for each pulse, from the first to the last.
fn fill(offset: i32, first: i32, pulses: &[i8], row: &mut [i32])
    requires { (pos 0 ≤ℤ offset) × ((offset ≤ℤ pos 60) × (length pulses.now ≡ length row.old)) }
    ensures { row.new ≡ (excitation_z offset (mod_z first (2 ^ 32)) pulses.now).e_Q23 }
{
    let mut seed = first;
    // By place: over `row.iter_mut().zip(pulses)` the loop's goals have no name for what the row holds so far.
    for (i, x) in pulses.iter().enumerate() {
        let t = pulse::pulse(offset, seed, *x);
        row[i] = t.e_Q23;
        seed = t.seed;
    }
}

// RFC 6716, 4.2.7.8.6: the excitation (Q23) of a frame's pulses, one value for each, into a lent row. `seed` is the one that the frame is
// coded with. Refused: the row is as it was.
pub fn excitation(
    pulses: &[i8],
    seed: i32,
    signal_type: i32,
    offset_type: i32,
    row: &mut [i32],
) -> Answer
    ensures { heard result row.new ≡ reading seed signal_type offset_type pulses.now row.old }
{
    refusals::check(seed, signal_type, offset_type, pulses.len(), row.len())?;
    let offset = offset_of(count::count(signal_type), count::count(offset_type));
    fill(offset, seed, pulses, row);
    Ok(())
}
