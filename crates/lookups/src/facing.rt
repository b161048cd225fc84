// Four directions to their faces and the places on them.
ghost use Rattle.std.specs.Prelude.{◌≡◌, IfOk};
ghost use Rattle.rules.specs.Refusals.{directions_refusal};
ghost use Rattle.rules.specs.Answers.{done, told, spots_at, facing_answer};
ghost use Rattle.lane.specs.Cubes.{AllOnCube};

use choice::lanes::{each, pairs};
use lane::spots::Seen;
use places::face::meet;
use places::refusals::check_directions;
use rules::{Directions, Refusal, Spots};

// Where four directions meet the cube: 7.
#[tactic(auto, using(rules::proofs::Answering::answer_or, rules::proofs::Answering::answer_as))]
pub fn facing(directions: Directions) -> Result<Seen, Refusal>
    ensures told { done result ≡ told (directions_refusal directions) }
    ensures met { IfOk result (λ met. met.spots ≡ spots_at directions) }
{
    check_directions(directions)?;
    let Directions { x, y, z } = directions;
    let met = each(pairs(x, pairs(y, z)), |(x, (y, z))| meet(x, y, z));
    Ok(Seen::new(met))
}

// Each direction's face and the place on it: 7.
#[tactic(auto, using(rules::proofs::Answering::answer_or, rules::proofs::Answering::answer_as), unfolding(rules::specs::Answers::facing_answer))]
pub fn cubemap_uv_from_normal(directions: Directions) -> Result<Spots, Refusal>
    ensures answer { result ≡ facing_answer directions }
    ensures on { IfOk result (λ spots. AllOnCube spots) }
{
    Ok(facing(directions)?.spots)
}
