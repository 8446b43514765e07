// The words of a sheet, and the numbers that they write.
ghost use Rattle.std.specs.Prelude.{◌≡◌, true, ◌+◌, drop};
ghost use Rattle.sheet_words.specs.Number.{run, decimal, value as value_n, magnitude, signed as signed_z, number_of};
ghost use Rattle.sheet_words.specs.Words.{in_class};

// The sorts of bytes that a run is made of.
#[derive(Clone, Copy)]
pub enum Class {
    Separator,
    InWord,
    Digit,
}

fn in_class(class: Class, b: u8) -> bool
    ensures { result ≡ in_class class b }
{
    match class {
        Class::Separator => b == b' ' || b == b'\n',
        Class::InWord => b != b' ' && b != b'\n',
        Class::Digit => b.is_ascii_digit(),
    }
}

// How many bytes the text begins with that are of the class. Over `position` it stayed open what its closure answers.
fn run_length(text: &[u8], class: Class) -> usize
    ensures { result ≡ run (in_class class) text.now }
{
    for (n, b) in text.iter().enumerate() {
        if !in_class(class, *b) {
            return n;
        }
    }
    text.len()
}

// The first place at or after `from` whose byte is not of the class, or the end of the text.
pub fn end_of_run(text: &[u8], from: usize, class: Class) -> usize
    ensures { result ≡ from + run (in_class class) (drop from text.now) }
{
    if text.len() <= from {
        from
    } else {
        from + run_length(&text[from..], class)
    }
}

// 1 to 10 bytes, all of them digits.
#[tactic(auto, using(crate::proofs::Values::all_read, crate::proofs::Values::too_few, crate::proofs::Values::too_many))]
fn is_decimal(digits: &[u8]) -> bool
    ensures { result ≡ decimal digits.now }
{
    match digits.len() {
        n @ 1..=10 => run_length(digits, Class::Digit) == n,
        _ => false,
    }
}

// The value of 1 to 10 digits.
fn value(digits: &[u8]) -> u64
    requires { decimal digits.now ≡ true }
    ensures { result ≡ value_n 0 digits.now }
{
    let mut sum = 0;
    for b in digits {
        sum = sum * 10 + u64::from(*b - b'0');
    }
    sum
}

#[tactic(auto, unfolding(crate::specs::Number::magnitude))]
fn magnitude_of(digits: &[u8]) -> Option<u64>
    ensures { result ≡ magnitude digits.now }
{
    if is_decimal(digits) {
        Some(value(digits))
    } else {
        None
    }
}

// The number of these digits, with a minus before them or without.
fn signed(minus: bool, digits: &[u8]) -> Option<i64>
    ensures { result ≡ signed_z minus (magnitude digits.now) }
{
    let n = magnitude_of(digits)? as i64;
    Some(if minus { -n } else { n })
}

// The number of a word: an optional minus and 1 to 10 digits.
pub fn number_of(word: &[u8]) -> Option<i64>
    ensures { result ≡ number_of word.now }
{
    if word.is_empty() {
        None
    } else if word[0] == b'-' {
        signed(true, &word[1..])
    } else {
        signed(false, word)
    }
}
