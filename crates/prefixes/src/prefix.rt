// The first n words of a row, or all of them where n is more.
ghost use Rattle.std.specs.Prelude.{◌≡◌, take};

pub fn first<'a, T>(row: &'a [T], n: usize) -> &'a [T]
    ensures { result.now ≡ take n row.now }
{
    if row.len() <= n { row } else { &row[..n] }
}
