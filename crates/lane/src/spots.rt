// Four places on the cube.
ghost use Rattle.lane.specs.Cubes.{AllOnCube};

use choice::lanes::{each, pairs};
use rules::{Four, Spot, Spots};

// Where four directions that are taken meet the cube. Side by side, since compiled code calls what hands this out: lane by lane a call of
// `cubemap_uv_from_normal` took 503 instructions in place of 220.
#[derive(Clone, Copy)]
pub struct Seen {
    pub spots: Spots,
    pub ghost on: { AllOnCube spots },
}

impl Seen {
    ghost use Rattle.std.specs.Prelude.{◌≡◌};
    ghost use Rattle.rules.specs.Answers.{spots_of};
    ghost use Rattle.choice.specs.Each.{InEach};
    ghost use Rattle.places.specs.Spots.{OnCube};
    ghost use Rattle.lane.specs.Cubes.{spots_in};

    // Four places, side by side.
    #[tactic(auto, unfolding(rules::specs::Answers::spots_of))]
    pub fn new(s: Four<Spot>) -> Seen
        requires { InEach OnCube s }
        ensures { result.spots ≡ spots_of s.a s.b s.c s.d }
    {
        Seen {
            spots: Spots {
                face: each(s, |k| k.face),
                u: each(s, |k| k.u),
                v: each(s, |k| k.v),
            },
        }
    }

    // Lane by lane.
    pub fn lanes(self) -> Four<Spot>
        ensures { result ≡ spots_in self.spots }
    {
        let s = self.spots;
        each(
            pairs(s.face, pairs(s.u, s.v)),
            |(face, (u, v))| Spot { face, u, v },
        )
    }
}
