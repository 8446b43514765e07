// Which part of a file is its samples.
ghost use Rattle.std.specs.Prelude.{◌≡◌, false, ◌+◌, ◌≤◌, length, length as length_of};
ghost use Rattle.wav_file.specs.Find.{format_at, data_at, rate_allowed, other_sound, not_wave, runs_past, found, part as part_by, part_of};
ghost use Rattle.wav_file.specs.Marks.{place, marks_of, format_answer, data_answer};
ghost use Rattle.wav_file.specs.Numbers.{in_numbers};

use crate::chunks::Marks;
use crate::refusal::Refusal;
use crate::{bytes, chunks};

// The place of the part in the file, its length in bytes, and the samples a second.
#[derive(Clone, Copy)]
pub struct Found {
    pub start: usize,
    pub length: usize,
    pub rate: u32,
}

fn not_wave(file: &[u8]) -> bool
    ensures { result ≡ not_wave file.now }
{
    if file.len() < 12 {
        return true;
    }
    let wave = bytes::named(file, 0, b"RIFF") && bytes::named(file, 8, b"WAVE");
    !wave
}

#[tactic(auto, using(crate::proofs::Rates::rate_listed, crate::proofs::Rates::rate_foreign))]
fn rate_allowed(rate: u32) -> bool
    ensures { result ≡ rate_allowed rate }
{
    matches!(rate, 8000 | 12000 | 16000)
}

// Whether the `fmt ` at a place says something else than PCM, one channel, an allowed rate and 16 bits.
fn other_sound(file: &[u8], at: usize) -> bool
    requires { at + 24 ≤ length file.now }
    ensures { result ≡ other_sound file.now at }
{
    let coding = bytes::word16(file, at + 8);
    let channels = bytes::word16(file, at + 10);
    let rate = bytes::word32(file, at + 12);
    let width = bytes::word16(file, at + 22);
    let mono = coding == 1 && channels == 1;
    let plain = rate_allowed(rate) && width == 16;
    !(mono && plain)
}

// The place of the first `fmt `, as the walk handed it on; refused where there is none, where it is short, or where it asks for another sound.
fn format_answer(file: &[u8], format: Option<usize>) -> Result<usize, Refusal>
    requires whole { runs_past file.now ≡ false }
    requires place { format ≡ place (format_at file.now) }
    ensures { result ≡ format_answer file.now }
{
    let Some(at) = format else {
        return Err(Refusal::NoFormat);
    };
    if chunks::size_at(file, at) < 16 {
        return Err(Refusal::NoFormat);
    }
    if other_sound(file, at) {
        return Err(Refusal::OtherFormat);
    }
    Ok(at)
}

// The place of the first `data`; refused where there is none, or where its length is odd.
fn data_answer(file: &[u8], body: Option<usize>) -> Result<usize, Refusal>
    requires whole { runs_past file.now ≡ false }
    requires place { body ≡ place (data_at file.now) }
    ensures { result ≡ data_answer file.now }
{
    let Some(at) = body else {
        return Err(Refusal::NoData);
    };
    let size = chunks::size_at(file, at);
    if size % 2 == 1 {
        return Err(Refusal::OddData);
    }
    Ok(at)
}

// Where the part is, once the walk is over; or why the file is refused: 4 to 7.
fn judged(file: &[u8], m: Marks) -> Result<Found, Refusal>
    requires short { length file.now ≤ 65536 }
    requires wave { not_wave file.now ≡ false }
    requires marks { Ok m ≡ marks_of file.now }
    ensures { in_numbers result ≡ found file.now }
{
    let format = format_answer(file, m.format)?;
    let body = data_answer(file, m.body)?;
    let length = chunks::size_at(file, body);
    let rate = bytes::word32(file, format + 12);
    Ok(Found {
        start: body + 8,
        length,
        rate,
    })
}

// Where the part is, or why the file is refused.
pub fn find(file: &[u8]) -> Result<Found, Refusal>
    ensures { in_numbers result ≡ found file.now }
{
    if 65536 < file.len() {
        return Err(Refusal::TooLong);
    }
    if not_wave(file) {
        return Err(Refusal::NotWave);
    }
    let m = chunks::walk(file)?;
    judged(file, m)
}

// `length` bytes of the file from `start` on: no copy.
fn cut(file: &[u8], start: usize, length: usize) -> &[u8]
    requires { start + length ≤ length_of file.now }
    ensures { result.now ≡ part_by file.now start length }
{
    &file[start..start + length]
}

// The part itself, which is no copy: as many bytes of the file as `find` says, from the place on that it says. Empty where the file is refused.
pub fn part(file: &[u8]) -> &[u8]
    ensures { result.now ≡ part_of file.now }
{
    match find(file) {
        Ok(r) => cut(file, r.start, r.length),
        Err(_) => &[],
    }
}
