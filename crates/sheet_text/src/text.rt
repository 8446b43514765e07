// The text of an answer and of a sheet's fault. Each is printed from the start of the lent buffer on, and the count of its
// bytes is handed back. A line with a number, and lines of numbers, are put on a page.
ghost use Rattle.std.specs.Prelude.{◌≡◌, ◌<◌, length, map};
ghost use Rattle.pages.specs.Page.{page as page_of, puts};
ghost use Rattle.pages.specs.Added.{Added};
ghost use Rattle.sheet_text.specs.Text.{line_of, after_pulse, pulse_lines, answer_text, fault_text};

use pages::number::Number;
use pages::page::Page;

// A word, a number and a line feed.
pub fn number_line<T: Number>(page: &mut Page, word: &[u8], x: T)
    ensures { Added page.old (line_of word.now (T.value x)) page.new }
{
    page.put_all(word);
    page.decimal(x);
    page.put(b'\n');
}

// What follows number i of n.
#[tactic(auto, using(crate::proofs::Lines::twentieth, crate::proofs::Lines::last_pulse, crate::proofs::Lines::other_pulse))]
fn after_pulse(n: usize, i: usize) -> u8
    requires { i < n }
    ensures { result ≡ after_pulse n i }
{
    if i % 20 == 19 || i + 1 == n {
        b'\n'
    } else {
        b' '
    }
}

// Numbers, twenty to a line with one space between.
pub fn value_lines<T: Number>(page: &mut Page, values: &[T])
    ensures { Added page.old (pulse_lines (length values.now) 0 (map T.value values.now)) page.new }
{
    let n = values.len();
    for (i, x) in values.iter().enumerate() {
        page.decimal(*x);
        page.put(after_pulse(n, i));
    }
}

// By number, as the definition `answer_text`: this crate knows no refusals.
fn put_answer(page: &mut Page, number: u32, seed: i32, pulses: &[i8])
    ensures { Added page.old (answer_text number seed pulses.now) page.new }
{
    number_line(page, b"answer ", number);
    if number == 0 {
        number_line(page, b"seed ", seed);
        value_lines(page, pulses);
    }
}

// An answer: number 0 with the seed and the pulses; a refusal has its number alone.
pub fn answer(out: &mut [u8], number: u32, seed: i32, pulses: &[i8]) -> usize
    ensures { page_of result out.new ≡ puts (answer_text number seed pulses.now) (page_of 0 out.old) }
{
    let mut page = Page::on(out, 0);
    put_answer(&mut page, number, seed, pulses);
    page.used()
}

// A sheet's fault.
#[tactic(auto, unfolding(crate::specs::Text::fault_text))]
pub fn fault(out: &mut [u8], k: u32) -> usize
    ensures { page_of result out.new ≡ puts (fault_text k) (page_of 0 out.old) }
{
    let mut page = Page::on(out, 0);
    number_line(&mut page, b"sheet fault ", k);
    page.used()
}
