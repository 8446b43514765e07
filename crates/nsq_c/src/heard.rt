// What the far end hears.
ghost use Rattle.std.specs.Prelude.{◌≡◌};
ghost use Rattle.nsq_c.specs.Heard.{numbered, heard_from};

use excitation::{answer, reader};

// RFC 6716, 4.2.7.8.6, on plain rows: writes one value e_Q23 for each pulse and returns 0; or returns 1 (the seed), 2 (signal type or offset
// type) or 3 (the two rows differ in length, or are longer than 320), and leaves the row.
#[unsafe(no_mangle)]
pub extern "C" fn nsq_excitation(
    pulses: &[i8],
    seed: i32,
    signal_type: i32,
    offset_type: i32,
    excitation: &mut [i32],
) -> u32
    ensures { numbered result excitation.new ≡ heard_from seed signal_type offset_type pulses.now excitation.old }
{
    answer::number(reader::excitation(pulses, seed, signal_type, offset_type, excitation))
}
