// What the program `wav` prints, in a lent page.
ghost use Rattle.std.specs.Prelude.{◌≡◌, ◌*◌, ◌/◌, ◌%◌, ◌≤◌, length, take};
ghost use Rattle.pages.specs.Page.{page as page_of, puts};
ghost use Rattle.pages.specs.Added.{Added};
ghost use Rattle.wav_file.specs.Fill.{samples_of};
ghost use Rattle.wav_page.specs.Text.{sound_text, wav_text};

use pages::page::Page;
use prefixes::prefix;
use sheet_text::text;
use wav_file::{find, samples};

// The most samples that a file can have: one of 65,536 bytes has at least 44 before them.
const MOST: usize = 32746;

// The rate, the number of samples and the samples of a part, for which a row of half its length is lent. By these lengths the second step never refuses.
fn shown(page: &mut Page, rate: u32, part: &[u8], row: &mut [i16])
    requires { (length part.now ≡ 2 * length row.old) × (length row.old ≤ 32746) }
    ensures { Added page.old (sound_text rate (samples_of part.now (length part.now / 2))) page.new }
{
    samples::fill(part, row).unwrap();
    text::number_line(page, b"rate ", rate);
    text::number_line(page, b"samples ", row.len() as u32);
    text::value_lines(page, row);
}

// The text of an accepted file, by its rate and its part.
fn sound(page: &mut Page, rate: u32, part: &[u8])
    requires { (length part.now % 2 ≡ 0) × (length part.now ≤ 65492) }
    ensures { Added page.old (sound_text rate (samples_of part.now (length part.now / 2))) page.new }
{
    let mut space = [0i16; MOST];
    let n = part.len() / 2;
    shown(page, rate, part, &mut space[0..n]);
}

// The part is found, and its text put on the page, or the refusal's number.
fn note(page: &mut Page, input: &[u8])
    ensures { Added page.old (wav_text input.now) page.new }
{
    match find::find(input) {
        Ok(r) => {
            let end = r.start + r.length;
            sound(page, r.rate, &input[r.start..end]);
        }
        Err(refusal) => {
            let number = refusal.number();
            text::number_line(page, b"wav ", number);
        }
    }
}

// The text of a file, from the page's start on; the count of the text's bytes is handed back.
pub fn wav_page(input: &[u8], page: &mut [u8]) -> usize
    ensures { page_of result page.new ≡ puts (wav_text input.now) (page_of 0 page.old) }
{
    let mut page = Page::on(page, 0);
    note(&mut page, input);
    page.used()
}

// The same of the first n bytes of the program's buffer, on the program's page. The buffer has room for one byte more than a file can have, so that
// a longer file is known by its length; the page has room for every text, so that the first bytes of it, as many as are handed back, are the text.
// One for each program: the sizes of its buffer and of its page stand in the types.
pub fn whole(space: &[u8; 65537], n: usize, page: &mut [u8; 229247]) -> usize
    ensures page { page_of result page.new ≡ puts (wav_text (take n space.now)) (page_of 0 page.old) }
    ensures text { take result page.new ≡ wav_text (take n space.now) }
    ensures within { result ≤ length page.new }
{
    wav_page(prefix::first(space, n), page)
}
