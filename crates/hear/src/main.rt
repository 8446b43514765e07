// The program `hear`: a sheet of two sections on standard input, what the far end hears of it on standard output. It prints nothing more and
// ends with status 0. One byte more than a sheet can have is read, so that a longer one is known by its length. The page has room for every
// text (`hear-leaves` in `hear_text`), so all of it is written.
#![tactic(auto)]

use hear_text::hear;

// The text of what was read, written from a lent page.
fn told(input: &[u8], page: &mut [u8]) {
    let used = hear::hear(input, page);
    io::write_all(1, &page[0..used]);
}

fn main() {
    let mut space = [0u8; 65537];
    let n = io::read_full(0, &mut space);
    let mut page = [0u8; 4096];
    told(&space[..n], &mut page);
}
