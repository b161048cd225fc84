// The cubemap lookup: the nearest texel of the face that a direction meets.
ghost use Rattle.std.specs.Prelude.{◌≡◌};
ghost use Rattle.rules.specs.Kinds.{cubemap, code_of};
ghost use Rattle.rules.specs.Cubemap.{cube_place};
ghost use Rattle.places.specs.Spots.{OnCube};

use crate::level::level_at;
use crate::spots::Seen;
use choice::lanes::{each, pairs};
use levels::layout::Layout;
use places::cube::cube_texel;
use places::place::Level;
use rules::{Four, Spot, Wholes};

// The place of the nearest texel on a face.
#[tactic(auto, unfolding(rules::specs::Cubemap::cube_place))]
pub fn cube_place(on: Level, s: Spot) -> usize
    requires { (on.plane.faces ≡ 6) × OnCube s }
    ensures { result ≡ cube_place on.plane s }
{
    let x = cube_texel(s.u, on.width());
    let y = cube_texel(s.v, on.height());
    on.place(s.face as usize, x, y)
}

// A cubemap of which it is known where each level starts.
#[derive(Clone, Copy)]
pub struct Cube<'a> {
    pub layout: &'a Layout,
    pub ghost is: { code_of layout.now.picture.kind ≡ cubemap },
}

impl<'a> Cube<'a> {
    ghost use Rattle.std.specs.Prelude.{min};
    ghost use Rattle.rules.specs.Sizes.{top};
    ghost use Rattle.rules.specs.Places.{plane_of};
    ghost use Rattle.lane.specs.Cubes.{lowered_place, cube_four};

    // A level, lowered to the top level.
    pub fn lowered(self, level: u32) -> Level
        ensures { result.plane ≡ plane_of cubemap self.entry.layout.now.picture.width self.entry.layout.now.picture.height (min level (top self.entry.layout.now.picture.width self.entry.layout.now.picture.height)) }
    {
        let top = self.layout.picture.top_level();
        level_at(self.layout, level.min(top))
    }

    // Where a lane reads, at a level that is lowered: the nearest texel on its face.
    fn lowered_place(self, s: Spot, level: u32) -> usize
        requires { OnCube s }
        ensures { result ≡ lowered_place self.entry.layout.now.picture.width self.entry.layout.now.picture.height s level }
    {
        cube_place(self.lowered(level), s)
    }

    // Where four do, each at its own level.
    #[tactic(auto, unfolding(crate::specs::Cubes::cube_four))]
    pub fn places(self, met: Seen, levels: Wholes) -> Four<usize>
        ensures { result ≡ cube_four self.entry.layout.now.picture.width self.entry.layout.now.picture.height met.spots levels }
    {
        let by_lane = pairs(met.lanes(), levels);
        each(by_lane, |(s, level)| self.lowered_place(s, level))
    }
}
