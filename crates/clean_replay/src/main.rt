// Replays stored sheets through the function behind the program `clean`: dirty and clean ones of every length, voiced and not, with every
// interpolation, spare slots and upper bits up to the ends of their range, odd spellings, refusals of every number, faults, sheets as long as can be.
// The list is on standard input: of each sheet its length, six digits and a line feed, then its bytes. The texts are printed one after the other.
//
// The file `stdout` was not made by this program: the stored texts were made by a reference of their own, in Python, for a fresh state with the lag
// 100 (again for request E3). tests/stored_sheets.py put both files together.
#![tactic(auto)]

use clean_page::page;
use fixed::wrap;
use limits::count;
use sheet_words::words;

// The length of the next sheet. After the last one stands none. As in `sheet_replay`: a program cannot be used by another.
fn next_length() -> Option<usize> {
    let mut head = [0u8; 7];
    io::read_full(0, &mut head);
    let z = words::number_of(&head[..6])?;
    Some(count::count(wrap::low32(z)))
}

// A sheet of this many bytes, read and cleaned as the program `clean` does it. The list has none that is longer than the buffer.
fn replay(length: usize) {
    if 65537 < length {
        return;
    }
    let mut space = [0u8; 65537];
    io::read_full(0, &mut space[..length]);
    let mut page = [0u8; 65545];
    let used = page::whole(&space, length, &mut page);
    io::write_all(1, &page[..used]);
}

// The next sheet, if there is one.
fn next() {
    if let Some(length) = next_length() {
        replay(length);
    }
}

// All sheets of the list, at most 512.
fn main() {
    for _ in 0..512 {
        next();
    }
}
