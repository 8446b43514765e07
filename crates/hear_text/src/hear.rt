// The whole text, by the bytes of the input.
ghost use Rattle.std.specs.Prelude.{◌≡◌};
ghost use Rattle.pages.specs.Page.{page as page_of, puts};
ghost use Rattle.hear_text.specs.Heard.{hear_text};

use crate::{answer, call};
use sheet_text::text;

// Two sections are read: seed, signal type and offset type; the pulses. What is heard of them, or the fault, is printed from the page's start
// on, and the count of the text's bytes handed back.
pub fn hear(input: &[u8], page: &mut [u8]) -> usize
    ensures { page_of result page.new ≡ puts (hear_text input.now) (page_of 0 page.old) }
{
    match call::read(input) {
        Ok(call) => answer::told(page, &call),
        Err(fault) => text::fault(page, fault.number),
    }
}
