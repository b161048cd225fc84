// An f32 to a whole number: the floor, an f32 itself, and the nearest with a half to the even neighbour.
ghost use Rattle.std.specs.Prelude.{◌≡◌};
ghost use Rattle.rules.specs.Floats.{Between, zero32};
ghost use Rattle.rules.specs.Whole.{floor_of, even_of};
ghost use Rattle.std.specs.Float.{binary32};
ghost use Rattle.std.specs.Float.Ieee.{of_int};
ghost use Rattle.texel.specs.Ends.{low23, high23, low12, high12};

// The greatest whole number that is at most x, as an f32, for an x of magnitude up to 2^23. The f64 sum x + 2^23 + 2^52 has 1 as its last
// place, so it rounds to a whole number; one compare says whether that is above x.
pub fn floor(x: f32) -> f32
    requires { Between low23 x high23 }
    ensures { result ≡ of_int binary32 (floor_of x) }
{
    let wide = x as f64;
    let near = (wide + 4503599635759104.0) - 4503599635759104.0;
    if wide < near {
        (near - 1.0) as f32
    } else {
        near as f32
    }
}

// The same for an x of magnitude up to 2^12, where the f32 sum x + 2^23 + 2^22 serves: the bilinear alpha lookup stands at 1.54 to 1.62 of the
// source where 1.6 is the bar, and takes 5.5 % more instructions by `floor`.
pub fn floor_near(x: f32) -> f32
    requires { Between low12 x high12 }
    ensures { result ≡ of_int binary32 (floor_of x) }
{
    let near = (x + 12582912.0) - 12582912.0;
    if x < near { near - 1.0 } else { near }
}

// The nearest whole number, a half to the even neighbour, for a p from 0 to 2^12. The sum p + 2^23 is rounded so, and has it in its low 23
// bits.
pub fn round_even(p: f32) -> u32
    requires { Between zero32 p high12 }
    ensures { result ≡ even_of p }
{
    let y = p + 8388608.0;
    f32::to_bits(y) % 8388608
}
