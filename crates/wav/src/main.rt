// The program `wav`: a WAV file on standard input, its rate and its samples on standard output, or the number of its refusal (docs/RULES.md, "Notes
// from WAV files"). It prints nothing more and ends with status 0. The sizes of its buffer and of its page are those of the function that it calls,
// whose contract says that the bytes written are the text of the bytes read, whole.
#![tactic(auto)]

use wav_page::page;

fn main() {
    let mut space = [0u8; 65537];
    let n = io::read_full(0, &mut space);
    let mut page = [0u8; 229247];
    let used = page::whole(&space, n, &mut page);
    io::write_all(1, &page[..used]);
}
