// Replays stored sheets through the function behind the program `sheet`: faults and refusals of every number, 1 to 4 paths, frames of every length,
// voiced and not, rows that differ from each other. The list is on standard input: of each sheet its length, six digits and a line feed, then its
// bytes. The texts are printed one after the other.
//
// The file `stdout` was not made by this program: the Rust answered, from a fresh state with the lag 100 (again for request E3); the lines
// of faults are as they were stored. tests/stored_sheets.py asked the Rust and put both files together.
#![tactic(auto)]

ghost use Rattle.std.specs.Prelude.{◌≤◌, IfSome};

use fixed::wrap;
use limits::count;
use sheet_page::page;
use sheet_words::words;

// The length of the next sheet, if there is one. What is no number, or too long for one, ends the list. As in `clean_replay`: a program cannot be
// used by another.
fn next_length() -> Option<usize>
    ensures { IfSome result (λ n. n ≤ 65537) }
{
    let mut head = [0u8; 7];
    io::read_full(0, &mut head);
    let z = words::number_of(&head[..6])?;
    let length = count::count(wrap::low32(z));
    if length <= 65537 { Some(length) } else { None }
}

// The next sheet, if there is one, read and answered as the program `sheet` does it.
fn replay() {
    if let Some(length) = next_length() {
        let mut space = [0u8; 65537];
        io::read_full(0, &mut space[..length]);
        let mut page = [0u8; 4096];
        let used = page::whole(&space, length, &mut page);
        io::write_all(1, &page[..used]);
    }
}

// All sheets of the list, at most 512.
fn main() {
    for _ in 0..512 {
        replay();
    }
}
