// The walk over the chunks of a file.
ghost use Rattle.std.specs.Prelude.{◌≡◌, true, ◌+◌, ◌≤◌, ◌<◌, length};
ghost use Rattle.wav_file.specs.Riff.{size_at, whole, after as after_at};
ghost use Rattle.wav_file.specs.Marks.{marks_of, format_with};

use crate::bytes;
use crate::refusal::Refusal;

// What the walk has met: the places of the first `fmt ` and the first `data`.
#[derive(Clone, Copy)]
pub struct Marks {
    pub format: Option<usize>,
    pub body: Option<usize>,
}

// The length of the content of the chunk at a place.
pub fn size_at(file: &[u8], at: usize) -> usize
    requires { at + 8 ≤ length file.now }
    ensures value { result ≡ size_at file.now at }
    ensures small { result < 4294967296 }
{
    bytes::word32(file, at + 4) as usize
}

// Whether the chunk's head and content lie in the file: what they need is compared with what is left. A length is below 2^32 and the sum has 64
// bits, so it doesn't come round.
fn is_whole(file: &[u8], at: usize) -> bool
    requires { at < length file.now }
    ensures { result ≡ whole file.now at }
{
    let left = file.len() - at;
    if left < 8 {
        return false;
    }
    let need = 8 + size_at(file, at);
    need <= left
}

// The place behind a chunk that lies in the file, and behind its pad byte.
fn after(file: &[u8], at: usize) -> usize
    requires short { length file.now ≤ 65536 }
    requires inside { whole file.now at ≡ true }
    ensures { result ≡ after_at file.now at }
{
    let size = size_at(file, at);
    at + 8 + size + size % 2
}

// The first `fmt `, one chunk further.
fn format_with(file: &[u8], at: usize, format: Option<usize>) -> Option<usize>
    requires { at + 8 ≤ length file.now }
    ensures { result ≡ format_with file.now at format }
{
    if bytes::named(file, at, b"fmt ") {
        format.or(Some(at))
    } else {
        format
    }
}

// The chunks from place 12 on, up to the first `data` or the end. Each but the last takes eight bytes at least, so
// there are at most 8,191. Refused where one runs past the end. A `while`, since each step is as long as its chunk.
pub fn walk(file: &[u8]) -> Result<Marks, Refusal>
    requires { length file.now ≤ 65536 }
    ensures { result ≡ marks_of file.now }
{
    let mut at: usize = 12;
    let mut format = None;
    while at < file.len() {
        if !is_whole(file, at) {
            return Err(Refusal::RunsPast);
        }
        format = format_with(file, at, format);
        if bytes::named(file, at, b"data") {
            let body = Some(at);
            return Ok(Marks { format, body });
        }
        at = after(file, at);
    }
    Ok(Marks { format, body: None })
}
