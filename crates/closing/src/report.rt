// The report: at how many places the pulses handed out differ from the final winner's own.
ghost use Rattle.std.specs.Prelude.{◌≡◌, ◌≤◌, length};
ghost use Rattle.fixed.specs.Iter.{either};
ghost use Rattle.limits.specs.Count.{same_z};
ghost use Rattle.steps.specs.Report.{differ as differ_z};

// 1 where two pulses differ, else 0: chosen as in the definition.
fn unlike(a: i8, b: i8) -> usize
    ensures { (result ≡ either (same_z a b) 0 1) × (result ≤ 1) }
{
    let p = a as i32;
    let q = b as i32;
    if p == q {
        return 0;
    }
    1
}

// At how many of the first n places two rows differ.
pub fn differ(out: &[i8], own: &[i8; 320], n: usize) -> usize
    requires { (n ≤ 320) × (n ≤ length out.now) }
    ensures { (result ≡ differ_z out.now own.now n) × (result ≤ n) }
{
    let mut m = 0;
    // By place: tried over `out[..n].iter().zip(&own[..n])`; that the invariant is preserved, and the count at the end, stayed open.
    for h in 0..n {
        let a = out[h];
        let b = own[h];
        m = m + unlike(a, b);
    }
    m
}
