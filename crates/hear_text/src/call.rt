// The call of the reader that a sheet of two sections says.
ghost use Rattle.std.specs.Prelude.{◌≡◌};
ghost use Rattle.hear_text.specs.Heard.{hear_text};
ghost use Rattle.hear_text.specs.Calls.{text_found};

use sheet_form::fault::Fault;
use sheet_form::rows::Row8;
use sheet_form::{section, sheet};

// Seed, signal type and offset type, and the pulses.
#[derive(Drop)]
pub struct Call {
    pub seed: i32,
    pub signal_type: i32,
    pub offset_type: i32,
    pub pulses: Row8,
}

// The two sections are read: three numbers in their order, and the pulses.
pub fn read(input: &[u8]) -> Result<Call, Fault>
    ensures { text_found result ≡ hear_text input.now }
{
    let (first, at2) = section::triple_section(input, sheet::start(input), 1)?;
    let (pulses, at3) = section::section8(input, Ok(at2), 2)?;
    sheet::end(input, Ok(at3), 3)?;
    let three = first.as_slice();
    Ok(Call {
        seed: three[0],
        signal_type: three[1],
        offset_type: three[2],
        pulses,
    })
}
