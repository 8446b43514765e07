// Replays stored files and parts through the reader of WAV files: files of every answer, cut off at every byte, with every field changed, of the
// longest length and one byte more, with thousands of chunks; parts that fit their row and parts that don't. The list is on standard
// input: of a file `find`, its length and its bytes; of a part `fill`, the length of the row, its own length and its bytes. For a file four lines
// with what was found are printed, and then the text of the program `wav`, by the function behind that program; for a part the answer, and the row
// as it is left.
//
// The file `stdout` was not made by this program: a reference in Python made it. tests/stored_wav.py put both files together.
#![tactic(auto)]

use fixed::wrap;
use limits::count;
use pages::page::Page;
use sheet_text::text;
use sheet_words::words;
use wav_file::{find, samples};

// What a case is of.
#[derive(Clone, Copy)]
enum Case {
    File,
    Part,
}

// The next case by its word, five bytes with the space behind it. After the last one stands nothing.
fn kind() -> Option<Case> {
    let mut word = [0u8; 5];
    io::read_full(0, &mut word);
    if word[0] != b'f' {
        None
    } else if word[2] == b'n' {
        Some(Case::File)
    } else {
        Some(Case::Part)
    }
}

// The next number: six digits and one byte more. What is none is read as 0.
fn number() -> usize {
    let mut digits = [0u8; 7];
    io::read_full(0, &mut digits);
    match words::number_of(&digits[..6]) {
        Some(z) => count::count(wrap::low32(z)),
        None => 0,
    }
}

// A word and a number on a line.
fn say(word: &[u8], n: u32) {
    let mut line = [0u8; 32];
    let mut page = Page::on(&mut line, 0);
    text::number_line(&mut page, word, n);
    io::write_all(1, page.text());
}

// What is found in a file. The length is that of the part itself.
fn found(file: &[u8]) {
    let length = find::part(file).len() as u32;
    match find::find(file) {
        Ok(f) => lines(0, f.start as u32, length, f.rate),
        Err(refusal) => lines(refusal.number(), 0, length, 0),
    }
}

fn lines(answer: u32, start: u32, length: u32, rate: u32) {
    say(b"answer ", answer);
    say(b"start ", start);
    say(b"length ", length);
    say(b"rate ", rate);
}

// A file, read and answered as the program `wav` does it.
fn file() {
    let length = number();
    if 65537 < length {
        return;
    }
    let mut space = [0u8; 65537];
    io::read_full(0, &mut space[..length]);
    found(&space[..length]);
    let mut page = [0u8; 229247];
    let used = wav_page::page::whole(&space, length, &mut page);
    io::write_all(1, &page[..used]);
}

// A row before the second step: words that no sample is but by chance.
fn other_words(row: &mut [i16]) {
    for (i, word) in row.iter_mut().enumerate() {
        let mixed = (i % 65536) as u32 * 7919 + 23205;
        *word = wrap::low16(mixed as i32);
    }
}

// The answer of the second step for a part, and the row as it is left.
fn filled(part: &[u8], row: &mut [i16]) {
    other_words(row);
    match samples::fill(part, row) {
        Ok(()) => say(b"answer ", 0),
        Err(refusal) => say(b"answer ", refusal.number()),
    }
    let mut space = [0u8; 229247];
    let mut page = Page::on(&mut space, 0);
    text::value_lines(&mut page, row);
    io::write_all(1, page.text());
}

// A part, with a row of the length that the list says.
fn part() {
    let places = number();
    let length = number();
    if 32746 < places || 65537 < length {
        return;
    }
    let mut space = [0u8; 65537];
    io::read_full(0, &mut space[..length]);
    let mut row = [0i16; 32746];
    filled(&space[..length], &mut row[..places]);
}

// The next case of the list, if there is one.
fn next() {
    match kind() {
        Some(Case::File) => file(),
        Some(Case::Part) => part(),
        None => {}
    }
}

// All cases of the list, at most 1,024.
fn main() {
    for _ in 0..1024 {
        next();
    }
}
