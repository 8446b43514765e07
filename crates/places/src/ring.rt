// The ring's places.
ghost use Rattle.std.specs.Prelude.{◌≡◌, ◌<◌};
ghost use Rattle.places.specs.Places.{down as down_z};

// One place down the ring.
pub fn down(r: usize) -> usize
    requires { r < 40 }
    ensures { (result ≡ down_z r) × (result < 40) }
{
    if r == 0 { 39 } else { r - 1 }
}
