// The program `sheet`: a call sheet on standard input, its answer on standard output (docs/RULES.md, "The call sheet"). It prints nothing more
// and ends with status 0. The sizes of its buffer and of its page are those of the function that it calls, whose contract says that the bytes
// written are the text of the bytes read, whole.
#![tactic(auto)]

use sheet_page::page;

fn main() {
    let mut space = [0u8; 65537];
    let n = io::read_full(0, &mut space);
    let mut page = [0u8; 4096];
    let used = page::whole(&space, n, &mut page);
    io::write_all(1, &page[..used]);
}
