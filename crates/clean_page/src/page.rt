// What the program `clean` prints, in a lent page.
ghost use Rattle.std.specs.Prelude.{◌≡◌, ◌≤◌, length, take};
ghost use Rattle.pages.specs.Page.{page as page_of, puts};
ghost use Rattle.pages.specs.Added.{Added};
ghost use Rattle.refusal_rules.specs.Code.{code_of};
ghost use Rattle.sheet_print.specs.Rows.{rows_of};
ghost use Rattle.sheet_page.specs.Calls.{sheet_answer};
ghost use Rattle.clean_page.specs.Sheets.{cleaned_rows};
ghost use Rattle.clean_page.specs.Text.{became_text, refused_text, numbered_text, clean_text};

use crate::{lines, sheet as cleaned};
use pages::page::Page;
use prefixes::prefix;
use sheet_form::sheet;
use sheet_form::sheet::Sheet;
use sheet_page::call;
use sheet_print::sheet as printed;
use sheet_text::text;

// A sheet that is accepted: a line for each number that cleaning changes, then the cleaned sheet.
fn became(page: &mut Page, read: &Sheet)
    ensures { Added page.old (became_text (rows_of read.now) (cleaned_rows (rows_of read.now))) page.new }
{
    let new = cleaned::clean(read);
    lines::changes(page, read, &new);
    printed::print(page, &new);
}

// A sheet that is refused: its number, then its bytes as they came.
fn refused(page: &mut Page, number: u32, input: &[u8])
    ensures { Added page.old (refused_text number input.now) page.new }
{
    text::number_line(page, b"answer ", number);
    page.put_all(input);
}

// A sheet that could be read from the bytes.
fn numbered(page: &mut Page, input: &[u8], read: &Sheet)
    ensures { Added page.old (numbered_text (code_of (sheet_answer (rows_of read.now))) input.now (rows_of read.now)) page.new }
{
    match call::checked(read) {
        Ok(()) => became(page, read),
        Err(why) => refused(page, why.number(), input),
    }
}

// The sheet is read, and its text printed from the page's start on; the count of the text's bytes is handed back.
pub fn clean_page(input: &[u8], page: &mut [u8]) -> usize
    ensures { page_of result page.new ≡ puts (clean_text input.now) (page_of 0 page.old) }
{
    match sheet::read(input) {
        Ok(sheet) => {
            let mut page = Page::on(page, 0);
            numbered(&mut page, input, &sheet);
            page.used()
        }
        Err(fault) => text::fault(page, fault.number),
    }
}

// The same of the first n bytes of the program's buffer, on the program's page. The buffer has room for one byte more than a sheet can have, so that
// a longer sheet is known by its length; the page has room for every text, so that the first bytes of it, as many as are handed back, are the text.
// One for each program: the sizes of its buffer and of its page stand in the types.
pub fn whole(space: &[u8; 65537], n: usize, page: &mut [u8; 65545]) -> usize
    ensures page { page_of result page.new ≡ puts (clean_text (take n space.now)) (page_of 0 page.old) }
    ensures text { take result page.new ≡ clean_text (take n space.now) }
    ensures within { result ≤ length page.new }
{
    clean_page(prefix::first(space, n), page)
}
