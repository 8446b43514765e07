// FNV-1a: a word or a byte more is joined to the sum by XOR, and the sum multiplied by a prime.
ghost use Rattle.std.specs.Prelude.{◌≡◌};
ghost use Rattle.digests.specs.Fnv.{fnv32_word, fnv64_word, fnv64_byte};

// The digest of 32 bits.
#[derive(Clone, Copy)]
pub struct Fnv32 {
    pub sum: u32,
}

impl Fnv32 {
    // The digest of nothing.
    pub const fn new() -> Fnv32
        ensures { result.sum ≡ 2166136261 }
    {
        Fnv32 { sum: 2166136261 }
    }

    // With a word more.
    pub const fn word(self, x: i32) -> Fnv32
        ensures { result.sum ≡ fnv32_word self.sum x }
    {
        Fnv32 {
            sum: (self.sum ^ x.cast_unsigned()).wrapping_mul(16777619),
        }
    }
}

// The digest of 64 bits. Two structs: the one joins a word at once, the other its four bytes.
#[derive(Clone, Copy)]
pub struct Fnv64 {
    pub sum: u64,
}

impl Fnv64 {
    // The digest of nothing.
    pub const fn new() -> Fnv64
        ensures { result.sum ≡ 14695981039346656037 }
    {
        Fnv64 {
            sum: 14695981039346656037,
        }
    }

    // With a byte more: the prime is 2^40 + 435.
    const fn byte(self, b: u8) -> Fnv64
        ensures { result.sum ≡ fnv64_byte self.sum b }
    {
        Fnv64 {
            sum: (self.sum ^ b as u64).wrapping_mul(1099511628211),
        }
    }

    // With the four bytes of a word more, the lowest first.
    pub const fn word(self, x: i32) -> Fnv64
        ensures { result.sum ≡ fnv64_word self.sum x }
    {
        let [a, b, c, d] = x.to_le_bytes();
        self.byte(a).byte(b).byte(c).byte(d)
    }
}
