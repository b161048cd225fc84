// The refusals of four lanes: one bad lane refuses all four.
ghost use Rattle.std.specs.Prelude.{◌≡◌};
ghost use Rattle.std.specs.Float.Ieee.Scale.{finite};
ghost use Rattle.rules.specs.Lanes.{in_lanes, in_directions};
ghost use Rattle.rules.specs.Faces.{direction_taken};
ghost use Rattle.rules.specs.Refusals.{coordinate_taken, coordinates_refusal, finite_refusal, directions_refusal};
ghost use Rattle.rules.specs.Answers.{told};

use crate::coordinate::coordinate_taken;
use crate::face::direction_taken;
use choice::lanes::{all, each, pairs};
use rules::{Directions, Lanes, Refusal};

// Whether each of four coordinates is taken.
#[tactic(auto, unfolding(rules::specs::Lanes::in_lanes))]
fn coordinates_taken(u: Lanes) -> bool
    ensures { result ≡ in_lanes coordinate_taken u }
{
    all(each(u, |x| coordinate_taken(x)))
}

// 5: a coordinate is not finite, or its magnitude is above 2,048.
// The caller makes `Coordinates`: handed out, bilinear alpha, 1.54 to 1.62 of the source where 1.6 is the bar, takes 3 % more instructions.
#[tactic(auto, unfolding(rules::specs::Refusals::coordinates_refusal, rules::specs::Refusals::refusal_of, rules::specs::Answers::answer))]
pub fn check_coordinates(u: Lanes, v: Lanes) -> Result<(), Refusal>
    ensures { result ≡ told (coordinates_refusal u v) }
{
    if coordinates_taken(u) & coordinates_taken(v) {
        Ok(())
    } else {
        Err(Refusal::NumberOutside)
    }
}

// Whether each of four numbers is finite.
#[tactic(auto, using(crate::proofs::Finites::finite_is), unfolding(rules::specs::Lanes::in_lanes))]
fn all_finite(l: Lanes) -> bool
    ensures { result ≡ in_lanes finite l }
{
    all(each(l, |x| x.is_finite()))
}

// 5: a step or fractional level is not finite.
#[tactic(auto, unfolding(rules::specs::Refusals::finite_refusal, rules::specs::Refusals::refusal_of, rules::specs::Answers::answer))]
pub fn check_finite(l: Lanes) -> Result<(), Refusal>
    ensures { result ≡ told (finite_refusal l) }
{
    if all_finite(l) {
        Ok(())
    } else {
        Err(Refusal::NumberOutside)
    }
}

// Whether each of four directions is taken.
#[tactic(auto, unfolding(rules::specs::Lanes::in_directions))]
fn directions_taken(d: Directions) -> bool
    ensures { result ≡ in_directions direction_taken d }
{
    all(each(
        pairs(d.x, pairs(d.y, d.z)),
        |(x, (y, z))| direction_taken(x, y, z),
    ))
}

// 7: a direction's component is not finite, or its largest magnitude is below 2^-60 or above 2^60.
#[tactic(auto, unfolding(rules::specs::Refusals::directions_refusal, rules::specs::Refusals::refusal_of, rules::specs::Answers::answer))]
pub fn check_directions(d: Directions) -> Result<(), Refusal>
    ensures { result ≡ told (directions_refusal d) }
{
    if directions_taken(d) {
        Ok(())
    } else {
        Err(Refusal::DirectionOutside)
    }
}
