// What the program `sheet` prints, in a lent page.
ghost use Rattle.std.specs.Prelude.{◌≡◌, ◌≤◌, length, take};
ghost use Rattle.pages.specs.Page.{page as page_of, puts};
ghost use Rattle.steps.specs.Among.{keeps_first};
ghost use Rattle.steps.specs.Entry.{outcome};
ghost use Rattle.sheet_print.specs.Rows.{rows_of};
ghost use Rattle.sheet_page.specs.Calls.{samples_in, sheet_call, defaulted, sheet_outcome};
ghost use Rattle.sheet_page.specs.Page.{outcome_text, sheet_page as sheet_page_n};

use crate::call;
use prefixes::prefix;
use sheet_form::sheet::Sheet;
use sheet_form::{blank, sheet};
use sheet_text::text;

// The text of a sheet's call, for which a row of pulses is lent.
fn told(page: &mut [u8], read: &Sheet, out: &mut [i8]) -> usize
    ensures { page_of result page.new
        ≡ puts (outcome_text (outcome keeps_first (defaulted (sheet_call (rows_of read.now))) (samples_in (rows_of read.now)) out.old)) (page_of 0 page.old) }
{
    match call::answered(read, out) {
        Ok(coded) => text::answer(page, 0, coded.seed, out),
        Err(refused) => text::answer(page, refused.why.number(), refused.seed, out),
    }
}

// The text of what comes of a sheet that could be read.
pub fn answer_page(page: &mut [u8], read: &Sheet) -> usize
    ensures { page_of result page.new ≡ puts (outcome_text (sheet_outcome keeps_first (rows_of read.now))) (page_of 0 page.old) }
{
    let n = call::pulse_count(read.settings);
    let mut space = blank::zeros8();
    told(page, read, &mut space[..n])
}

// The sheet is read, and its fault or its answer printed from the page's start on; the count of the text's bytes is handed back.
pub fn sheet_page(input: &[u8], page: &mut [u8]) -> usize
    ensures { page_of result page.new ≡ puts (sheet_page_n keeps_first input.now) (page_of 0 page.old) }
{
    match sheet::read(input) {
        Ok(sheet) => answer_page(page, &sheet),
        Err(fault) => text::fault(page, fault.number),
    }
}

// The same of the first n bytes of the program's buffer, on the program's page. The buffer has room for one byte more than a sheet can have, so that
// a longer sheet is known by its length; the page has room for every text, so that the first bytes of it, as many as are handed back, are the text.
// One for each program: the sizes of its buffer and of its page stand in the types.
pub fn whole(space: &[u8; 65537], n: usize, page: &mut [u8; 4096]) -> usize
    ensures page { page_of result page.new ≡ puts (sheet_page_n keeps_first (take n space.now)) (page_of 0 page.old) }
    ensures text { take result page.new ≡ sheet_page_n keeps_first (take n space.now) }
    ensures within { result ≤ length page.new }
{
    sheet_page(prefix::first(space, n), page)
}
