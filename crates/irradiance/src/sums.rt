// The sums over a row, a face, and the six faces.
ghost use Rattle.std.specs.Prelude.{◌≡◌, ◌<◌};
ghost use Rattle.rules.specs.Irradiance.{in_turn, sums_of};
ghost use Rattle.irradiance.specs.Turns.{with_row};

use crate::cubemap::Cubemap;
use crate::tones::Tones;
use rules::{Basis, Rgb, Sh4};

impl Cubemap<'_> {
    // The sums with row y of a face.
    fn sum_row(&self, tones: &Tones, face: u32, y: u32, mut sums: Sh4) -> Sh4
        requires { (face < 6) × (y < self.now.height) }
        ensures { result ≡ with_row self.now face y sums }
    {
        let width = self.width as usize;
        let start = ((face as usize) * (self.height as usize) + (y as usize)) * width;
        let row = &self.texels[start..start + width];
        for (i, texels) in row.chunks(64).enumerate() {
            sums = self.sum_part(tones, face, y, 64 * (i as u32), texels, sums);
        }
        sums
    }

    // The sums with a face, row after row.
    #[tactic(auto, using(crate::proofs::Turns::turn_first))]
    fn sum_face(&self, tones: &Tones, face: u32, mut sums: Sh4) -> Sh4
        requires { face < 6 }
        ensures { result ≡ in_turn self.now.height (with_row self.now face) sums }
    {
        for y in 0..self.height {
            sums = self.sum_row(tones, face, y, sums);
        }
        sums
    }

    // The sums of all faces, each from +0.
    #[tactic(auto, using(crate::proofs::Turns::turn_first, crate::proofs::Turns::turn_next), unfolding(rules::specs::Irradiance::sums_of))]
    pub fn sum_faces(&self, tones: &Tones) -> Sh4
        ensures { result ≡ sums_of self.now.width self.now.height self.now.texels.now }
    {
        let black = Rgb {
            r: 0.0,
            g: 0.0,
            b: 0.0,
        };
        let mut sums = Basis {
            constant: black,
            y: black,
            z: black,
            x: black,
        };
        for face in 0..6 {
            sums = self.sum_face(tones, face, sums);
        }
        sums
    }
}
