// Four numbers behind a pointer, as lanes. Functions, and no `From`: neither it nor `Four` is this crate's, and C alone lends such numbers.
ghost use Rattle.std.specs.Prelude.{◌≡◌};
ghost use Rattle.station.specs.Written.{to_four, to_directions};

use rules::{Directions, Four};

pub fn four<T: Copy>(l: &[T; 4]) -> Four<T>
    ensures { (other : T) → result ≡ to_four other l.now }
{
    let [a, b, c, d] = *l;
    Four { a, b, c, d }
}

pub fn directions(x: &[f32; 4], y: &[f32; 4], z: &[f32; 4]) -> Directions
    ensures { result ≡ to_directions x.now y.now z.now }
{
    Directions {
        x: four(x),
        y: four(y),
        z: four(z),
    }
}
