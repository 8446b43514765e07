// One section of a sheet: its count, and that many numbers.
ghost use Rattle.std.specs.Prelude.{◌≡◌, ◌≤◌, drop};
ghost use Rattle.sheet_form.specs.Sections.{numbers as numbers_z, section as section_z, settings, triple, row, i8, i16, i32};
ghost use Rattle.sheet_form.specs.Found.{kind, numbers_found, take_section, items, section_found, rest_at};

use crate::fault::Fault;
use crate::number;
use crate::number::Bounds;
use crate::rows::{Row, Row8, Row16, Row32};

// How many numbers a section may have.
#[derive(Clone, Copy)]
struct Counts {
    least: u32,
    most: u32,
}

const SETTINGS: Counts = Counts {
    least: 12,
    most: 12,
};

const TRIPLE: Counts = Counts { least: 3, most: 3 };

const ROW: Counts = Counts {
    least: 0,
    most: 320,
};

// `count` numbers from the place `at` on, and the place after them.
fn numbers<R: Row>(text: &[u8], at: usize, count: usize) -> Option<(R, usize)>
    requires { count ≤ 320 }
    ensures { numbers_found R.numbers text.now result ≡ numbers_z R.words count (drop at text.now) }
{
    let bounds = R::bounds();
    let mut row = R::empty();
    let mut place = at;
    for i in 0..count {
        let (z, next) = number::number_in(text, place, bounds)?;
        row.add(z);
        place = next;
    }
    Some((row, place))
}

// A count from the place `at` on, and that many numbers.
fn counted<R: Row>(text: &[u8], at: usize, counts: Counts) -> Option<(R, usize)>
    requires { counts.most ≤ 320 }
    ensures { numbers_found R.numbers text.now result ≡ section_z (kind counts R.words) (drop at text.now) }
{
    let bounds = Bounds {
        low: i64::from(counts.least),
        high: i64::from(counts.most),
    };
    let (n, next) = number::number_in(text, at, bounds)?;
    numbers(text, next, n as usize)
}

// Section k from where the section before it ended: its numbers, and the place after it. After a fault nothing is read, and that fault is
// handed on.
fn section<R: Row>(
    text: &[u8],
    from: Result<usize, Fault>,
    k: u32,
    counts: Counts,
) -> Result<(R, usize), Fault>
    requires { counts.most ≤ 320 }
    ensures { section_found R.numbers text.now result ≡ take_section (kind counts R.words) k (rest_at text.now from) }
{
    let at = from?;
    match counted(text, at, counts) {
        Some(read) => Ok(read),
        None => Err(Fault { number: k }),
    }
}

// Section 1: exactly 12 numbers of 32 bits.
pub fn settings_section(text: &[u8], from: Result<usize, Fault>) -> Result<(Row32, usize), Fault>
    ensures { section_found items text.now result ≡ take_section settings 1 (rest_at text.now from) }
{
    section(text, from, 1, SETTINGS)
}

// Section k: exactly three numbers of 32 bits.
pub fn triple_section(
    text: &[u8],
    from: Result<usize, Fault>,
    k: u32,
) -> Result<(Row32, usize), Fault>
    ensures { section_found items text.now result ≡ take_section triple k (rest_at text.now from) }
{
    section(text, from, k, TRIPLE)
}

// Section k with 0 to 320 numbers of 32 bits. A name for each width: the trait of rows is the crate's own.
pub fn section32(text: &[u8], from: Result<usize, Fault>, k: u32) -> Result<(Row32, usize), Fault>
    ensures { section_found items text.now result ≡ take_section (row i32) k (rest_at text.now from) }
{
    section::<Row32>(text, from, k, ROW)
}

// Section k with 0 to 320 numbers of 8 bits.
pub fn section8(text: &[u8], from: Result<usize, Fault>, k: u32) -> Result<(Row8, usize), Fault>
    ensures { section_found items text.now result ≡ take_section (row i8) k (rest_at text.now from) }
{
    section(text, from, k, ROW)
}

// Section k with 0 to 320 numbers of 16 bits.
pub fn section16(text: &[u8], from: Result<usize, Fault>, k: u32) -> Result<(Row16, usize), Fault>
    ensures { section_found items text.now result ≡ take_section (row i16) k (rest_at text.now from) }
{
    section(text, from, k, ROW)
}
