// The nearest lookup: the texel at floor(u * width), floor(v * height), wrapped into the level.
ghost use Rattle.std.specs.Prelude.{◌≡◌};
ghost use Rattle.lane.specs.Reading.{nearest_four};

use crate::reading::{first_faces, places};
use places::axis::nearest_four;
use places::coordinate::Coordinates;
use places::place::Level;
use places::wrap::Wrapping;
use rules::Four;

// The places of four lanes, all on the first face.
#[tactic(auto, unfolding(crate::specs::Reading::nearest_four, crate::specs::Reading::places_of, rules::specs::Places::nearest_place, places::specs::Stands::nearests_of))]
pub fn nearest_places(on: Level, by: Wrapping, u: Coordinates, v: Coordinates) -> Four<usize>
    ensures { result ≡ nearest_four on.plane by.s by.t u.lanes v.lanes }
{
    let x = nearest_four(by.s, u, on.width());
    let y = nearest_four(by.t, v, on.height());
    places(on, first_faces(), x, y)
}
