// The places of four lanes in a level.
ghost use Rattle.std.specs.Prelude.{◌≡◌};
ghost use Rattle.places.specs.Sized.{Below};
ghost use Rattle.lane.specs.Reading.{places_of};

use choice::lanes::{each, pairs};
use places::place::Level;
use rules::{Four, Wholes};

// The first face, in each lane.
pub fn first_faces() -> Wholes
    ensures { result ≡ record { a = 0; b = 0; c = 0; d = 0 } }
{
    Wholes {
        a: 0,
        b: 0,
        c: 0,
        d: 0,
    }
}

// Each lane's texel (x, y) on its own face.
#[tactic(auto, unfolding(crate::specs::Reading::places_of))]
pub fn places(on: Level, faces: Wholes, x: Wholes, y: Wholes) -> Four<usize>
    requires { Below on.plane.faces faces × Below on.plane.width x × Below on.plane.height y }
    ensures { result ≡ places_of on.plane faces x y }
{
    each(pairs(faces, pairs(x, y)), |(face, (x, y))| {
        on.place(face as usize, x as usize, y as usize)
    })
}
