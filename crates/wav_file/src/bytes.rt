// The numbers and the names in a file's bytes.
ghost use Rattle.std.specs.Prelude.{◌≡◌, ◌+◌, ◌≤◌, ◌<◌, length, slice_index};
ghost use Rattle.wav_file.specs.Bytes.{word16 as word16_of, word32 as word32_of, named as named_of};

// Two bytes, low byte first; added as the definition adds them.
pub fn word16(s: &[u8], at: usize) -> u32
    requires { at + 2 ≤ length s.now }
    ensures value { result ≡ word16_of s.now at }
    ensures small { result < 65536 }
{
    let low = u32::from(s[at]);
    let high = u32::from(s[at + 1]);
    low + 256 * high
}

// Four bytes, low byte first.
pub fn word32(s: &[u8], at: usize) -> u32
    requires { at + 4 ≤ length s.now }
    ensures { result ≡ word32_of s.now at }
{
    word16(s, at) + 65536 * word16(s, at + 2)
}

// Whether the name stands at the place: byte by byte, since a comparison of slices calls, and C's callers have the stack of it.
#[tactic(auto, unfolding(crate::specs::Bytes::named))]
pub fn named(s: &[u8], at: usize, name: &[u8; 4]) -> bool
    requires { at + 4 ≤ length s.now }
    ensures { result ≡ named_of s.now at (slice_index name.now 0) (slice_index name.now 1) (slice_index name.now 2) (slice_index name.now 3) }
{
    s[at] == name[0] && s[at + 1] == name[1] && s[at + 2] == name[2] && s[at + 3] == name[3]
}
