// The rows that a frame leaves for the next one.
ghost use Rattle.std.specs.Prelude.{◌≡◌, ◌+◌, ◌≤◌};
ghost use Rattle.word_steps.specs.Tail.{moved_down, words_from};

// m words of the sample history move down by s.
pub fn moved_down16(row: &mut [i16; 640], s: usize, m: usize)
    requires { s + m ≤ 640 }
    ensures { row.new ≡ moved_down s m row.old }
{
    row.copy_within(s..s + m, 0);
}

// m shaping words move down by s. Two names, one for each width: `moved_down` is of numbers, not of any T, and a body is one call already.
pub fn moved_down32(row: &mut [i32; 640], s: usize, m: usize)
    requires { s + m ≤ 640 }
    ensures { row.new ≡ moved_down s m row.old }
{
    row.copy_within(s..s + m, 0);
}

// A row whose first 16 words become those of another from a on.
pub fn words_from(row: [i32; 96], from: [i32; 96], a: usize) -> [i32; 96]
    requires { a + 16 ≤ 96 }
    ensures { result ≡ words_from from a 16 row }
{
    let mut words = row;
    words[..16].copy_from_slice(&from[a..a + 16]);
    words
}
