// Up to 64 texels of a row. The columns' places and the guesses at their roots are worked out first, each in a loop of its own, the
// guesses in vector code; the sums are added up one texel after the other. The bar is 1.5 of a plain loop's time, which this form meets at
// 1.32: all in one loop takes 28 ns a texel in place of 16.
ghost use Rattle.std.specs.Prelude.{◌≡◌, ◌+◌, ◌≤◌, ◌<◌, length};
ghost use Rattle.rules.specs.Irradiance.{centre_of, gets, all_get};
ghost use Rattle.irradiance.specs.Holding.{Placed};
ghost use Rattle.irradiance.specs.Turns.{with_part};

use crate::cubemap::Cubemap;
use crate::place::{Coordinate, centre, place_basis, squared_distance};
use crate::root::guess;
use crate::tones::Tones;
use rules::{Basis, Rgb, Sh4};

// Guesses at the roots of their distances, in the row at v.
fn guesses(v: Coordinate, us: &[Coordinate], near: &mut [f64]) {
    for (near, u) in near.iter_mut().zip(us) {
        *near = guess(squared_distance(*u, v));
    }
}

// A sum of three colours gets colour * (basis * weight).
#[tactic(auto, unfolding(rules::specs::Irradiance::gets))]
fn get(sum: Rgb, colour: Rgb, k: f32) -> Rgb
    ensures { result ≡ gets sum colour k }
{
    Rgb {
        r: sum.r + colour.r * k,
        g: sum.g + colour.g * k,
        b: sum.b + colour.b * k,
    }
}

// All four sums with one texel more.
#[tactic(auto, unfolding(rules::specs::Irradiance::all_get))]
fn all_get(colour: Rgb, k: Basis<f32>, sums: Sh4) -> Sh4
    ensures { result ≡ all_get colour k sums }
{
    Basis {
        constant: get(sums.constant, colour, k.constant),
        y: get(sums.y, colour, k.y),
        z: get(sums.z, colour, k.z),
        x: get(sums.x, colour, k.x),
    }
}

impl Cubemap<'_> {
    // The places of the columns from the column `from` on.
    fn centres(&self, from: u32, us: &mut [Coordinate])
        requires { from + length us.old ≤ self.now.width }
        ensures { Placed (λ i. centre_of self.now.width (from + i)) us.new }
    {
        for (i, u) in us.iter_mut().enumerate() {
            *u = centre(self.width, from + (i as u32));
        }
    }

    // The sums with the texels of a part of row y of a face, which starts at the column `from`.
    pub fn sum_part(
        &self,
        tones: &Tones,
        face: u32,
        y: u32,
        from: u32,
        texels: &[u32],
        mut sums: Sh4,
    ) -> Sh4
        requires { (y < self.now.height) × (from + length texels.now ≤ self.now.width) × (length texels.now ≤ 64) }
        ensures { result ≡ with_part self.now face y from texels.now sums }
    {
        let omega = self.texel_omega();
        let v = centre(self.height, y);
        let mut us = [Coordinate { at: 0.0 }; 64];
        let us = &mut us[..texels.len()];
        self.centres(from, us);
        let mut near = [0.0f64; 64];
        let near = &mut near[..texels.len()];
        guesses(v, us, near);
        for ((texel, u), near) in texels.iter().zip(us.iter()).zip(near.iter()) {
            let k = place_basis(omega, face, *u, v, *near);
            sums = all_get(tones.decoded(*texel), k, sums);
        }
        sums
    }
}
