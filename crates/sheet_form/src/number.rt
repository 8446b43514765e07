// A number in its place in the text.
ghost use Rattle.std.specs.Prelude.{◌≡◌, drop};
ghost use Rattle.sheet_words.specs.Number.{within as within_z, number};
ghost use Rattle.sheet_form.specs.Found.{range, number_found};

use sheet_words::words;
use sheet_words::words::Class;

// The numbers from `low` to `high`.
#[derive(Clone, Copy)]
pub struct Bounds {
    pub low: i64,
    pub high: i64,
}

impl Bounds {
    // The number, if it lies between the bounds.
    fn within(self, z: i64) -> Option<i64>
        ensures { result ≡ within_z (range self) z }
    {
        if z < self.low || self.high < z {
            None
        } else {
            Some(z)
        }
    }
}

// The next word from `at` on as a number between the bounds, and the place after it.
pub fn number_in(text: &[u8], at: usize, bounds: Bounds) -> Option<(i64, usize)>
    ensures { number_found text.now result ≡ number (range bounds) (drop at text.now) }
{
    let start = words::end_of_run(text, at, Class::Separator);
    if text.len() <= start {
        return None;
    }
    let end = words::end_of_run(text, start, Class::InWord);
    let z = words::number_of(&text[start..end])?;
    Some((bounds.within(z)?, end))
}
