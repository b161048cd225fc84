// A texel's place in the chain. Every place that is read goes through here.
ghost use Rattle.places.specs.Sized.{Sized};

use crate::side::Side;
use rules::Plane;

// A level of which each texel has a place.
#[derive(Clone, Copy)]
pub struct Level {
    pub plane: Plane,
    pub ghost sized: { Sized plane },
}

impl Level {
    ghost use Rattle.std.specs.Prelude.{◌≡◌, ◌+◌, ◌*◌, ◌<◌};
    ghost use Rattle.rules.specs.Places.{place_of, InLevel};

    // Its width.
    pub fn width(self) -> Side
        ensures { result.texels ≡ self.plane.width }
    {
        Side {
            texels: self.plane.width as u32,
        }
    }

    // Its height.
    pub fn height(self) -> Side
        ensures { result.texels ≡ self.plane.height }
    {
        Side {
            texels: self.plane.height as u32,
        }
    }

    // Texel (x, y) of face f as a place in the level.
    fn inside(self, f: usize, x: usize, y: usize) -> usize
        requires { InLevel self.plane f x y }
        ensures { (result ≡ (f * self.plane.height + y) * self.plane.width + x) × (result < 100663296) }
    {
        (f * self.plane.height + y) * self.plane.width + x
    }

    // Texel (x, y) of face f as a place in the chain.
    #[tactic(auto, unfolding(rules::specs::Places::place_of))]
    pub fn place(self, f: usize, x: usize, y: usize) -> usize
        requires { InLevel self.plane f x y }
        ensures { result ≡ place_of self.plane f x y }
    {
        self.plane.start + self.inside(f, x, y)
    }
}
