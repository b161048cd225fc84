// The trilinear cubemap lookup: two levels, blended by the fraction between them.
ghost use Rattle.std.specs.Prelude.{◌≡◌, ◌≤◌, suc};
ghost use Rattle.std.specs.Float.Ieee.Scale.{finite};
ghost use Rattle.rules.specs.Sizes.{top};
ghost use Rattle.rules.proofs.RefusingLookups.{EachLane};
ghost use Rattle.places.specs.Sized.{Below};
ghost use Rattle.places.specs.Spots.{OnCube};
ghost use Rattle.lane.specs.Cubes.{lowered_place, cube_four, two_levels, lerp_lanes, lerp_colours};

use crate::cubemap::{Cube, cube_place};
use crate::level::level_at;
use crate::spots::Seen;
use choice::lanes::{each, pairs};
use places::cube::{lerp, pairing};
use places::level::Top;
use rules::{Directions, Four, Lanes, Pairing, Spot, Wholes};

// The two levels of four lanes' fractional levels, and how far each lane lies between its two.
#[tactic(auto, unfolding(crate::specs::Cubes::two_levels))]
pub fn two_levels(levels: Lanes, top: Top) -> Pairing<Wholes, Lanes>
    requires { EachLane finite levels }
    ensures { (result ≡ two_levels levels top.level) × Below (suc top.level) result.low × Below (suc top.level) result.high }
{
    let m = each(levels, |x| pairing(x, top));
    Pairing {
        low: each(m, |p| p.low),
        high: each(m, |p| p.high),
        part: each(m, |p| p.part),
    }
}

// Where a lane reads a level of the picture, by its number as `level_at`: it is not lowered.
fn level_place(cube: Cube, s: Spot, level: u32) -> usize
    requires { OnCube s × (level ≤ top cube.layout.now.picture.width cube.layout.now.picture.height) }
    ensures { result ≡ lowered_place cube.entry.layout.now.picture.width cube.entry.layout.now.picture.height s level }
{
    cube_place(level_at(cube.layout, level), s)
}

// Where four do, each at its own level of the picture.
#[tactic(auto, unfolding(crate::specs::Cubes::cube_four))]
fn level_four(cube: Cube, met: Seen, levels: Wholes) -> Four<usize>
    requires { Below (suc (top cube.layout.now.picture.width cube.layout.now.picture.height)) levels }
    ensures { result ≡ cube_four cube.entry.layout.now.picture.width cube.entry.layout.now.picture.height met.spots levels }
{
    let by_lane = pairs(met.lanes(), levels);
    each(by_lane, |(s, level)| level_place(cube, s, level))
}

// Where four lanes read, at the lower levels and at the upper ones, by their numbers as `level_at`.
pub fn level_places(cube: Cube, met: Seen, m: Pairing<Wholes, Lanes>) -> Pairing<Four<usize>, Lanes>
    requires { Below (suc (top cube.layout.now.picture.width cube.layout.now.picture.height)) m.low × Below (suc (top cube.layout.now.picture.width cube.layout.now.picture.height)) m.high }
    ensures { result ≡ record { low = cube_four cube.entry.layout.now.picture.width cube.entry.layout.now.picture.height met.spots m.low; high = cube_four cube.entry.layout.now.picture.width cube.entry.layout.now.picture.height met.spots m.high; part = m.part } }
{
    Pairing {
        low: level_four(cube, met, m.low),
        high: level_four(cube, met, m.high),
        part: m.part,
    }
}

// c0 + (c1 - c0) * t, lane by lane.
fn lerp_lanes(p: Lanes, q: Lanes, t: Lanes) -> Lanes
    ensures { result ≡ lerp_lanes p q t }
{
    each(pairs(pairs(p, q), t), |((p, q), t)| lerp(p, q, t))
}

// The colours of four lanes at two levels, blended.
pub fn lerp_four(low: Directions, high: Directions, t: Lanes) -> Directions
    ensures { result ≡ lerp_colours low high t }
{
    Directions {
        x: lerp_lanes(low.x, high.x, t),
        y: lerp_lanes(low.y, high.y, t),
        z: lerp_lanes(low.z, high.z, t),
    }
}
