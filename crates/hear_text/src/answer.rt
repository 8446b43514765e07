// The reader's answer as text.
ghost use Rattle.std.specs.Prelude.{◌≡◌};
ghost use Rattle.pages.specs.Page.{page as page_of, puts};
ghost use Rattle.pages.specs.Added.{Added};
ghost use Rattle.excitation.specs.Reading.{reading};
ghost use Rattle.hear_text.specs.Heard.{answer_text, heard_text};
ghost use Rattle.hear_text.specs.Calls.{text_of_call};

use crate::call::Call;
use excitation::{answer, reader};
use pages::page::Page;
use sheet_form::blank;
use sheet_text::text;

// The answer's line, and after number 0 the values: by number, as the definition `answer_text`.
fn shown(page: &mut Page, number: u32, values: &[i32])
    ensures { Added page.old (answer_text number values.now) page.new }
{
    text::number_line(page, b"answer ", number);
    if number == 0 {
        text::value_lines(page, values);
    }
}

// The reader is called with a lent row, and what it leaves is shown.
fn read(page: &mut Page, call: &Call, row: &mut [i32])
    ensures { Added page.old (heard_text (reading call.now.seed call.now.signal_type call.now.offset_type call.now.pulses.items row.old)) page.new }
{
    let a = reader::excitation(
        call.pulses.as_slice(),
        call.seed,
        call.signal_type,
        call.offset_type,
        row,
    );
    shown(page, answer::number(a), row);
}

// The text of what is heard. The row that is lent has one zero for each pulse.
fn put_call(page: &mut Page, call: &Call)
    ensures { Added page.old (text_of_call call.now) page.new }
{
    let mut space = blank::zeros32();
    let n = call.pulses.len();
    read(page, call, &mut space[..n]);
}

// The same, from the page's start on.
pub fn told(page: &mut [u8], call: &Call) -> usize
    ensures { page_of result page.new ≡ puts (text_of_call call.now) (page_of 0 page.old) }
{
    let mut out = Page::on(page, 0);
    put_call(&mut out, call);
    out.used()
}
