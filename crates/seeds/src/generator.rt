// The pseudo-random generator that turns the residual's sign. It runs for each path at each sample, also on a core whose products have 32 bits:
// so its product is worked out from the seed's halves of 16 bits, and no number on the way has more than 32.
ghost use Rattle.std.specs.Prelude.{◌≡◌, ◌<◌, ◌^◌};
ghost use Rattle.seeds.specs.Generator.{rand as rand_z};
ghost use Rattle.seeds.specs.Halves.{low_half, high_half, joined as joined_z};

// One step from the seed. The multiplier is 65536 * 2995 + 33845; the product of the two high halves, which begins at bit 32, is never made.
pub fn rand(seed: i32) -> i32
    ensures { result ≡ rand_z seed }
{
    let l = low_half(seed);
    let h = high_half(seed);
    let low = l * 33845 + 907633515;
    let high = l * 2995 + h * 33845 + (low >> 16);
    joined(high & 0xffff, low & 0xffff)
}

// The low 16 bits of the seed, without sign.
fn low_half(seed: i32) -> u32
    ensures { result ≡ low_half seed }
{
    (seed & 0xffff) as u32
}

// The high 16 bits of the seed, without sign.
fn high_half(seed: i32) -> u32
    ensures { result ≡ high_half seed }
{
    ((seed >> 16) & 0xffff) as u32
}

// The word of two halves, with its sign.
fn joined(high: u32, low: u32) -> i32
    requires high_fits { high < 2 ^ 16 }
    requires low_fits { low < 2 ^ 16 }
    ensures { result ≡ joined_z high low }
{
    ((high as i32) << 16) | (low as i32)
}
