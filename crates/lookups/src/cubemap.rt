// The cubemap lookup of four lanes, each at a level of its own.
ghost use Rattle.std.specs.Prelude.{◌≡◌};
ghost use Rattle.rules.specs.Answers.{cubemap_answer};

use crate::facing::facing;
use lane::cubemap::Cube;
use lane::pixel::rgb_four;
use levels::layout::Layout;
use levels::picture::Picture;
use rules::{Directions, Refusal, Wholes};

// The colours of four lanes, each that of the nearest texel of the face that its direction meets, at its own level: 1, 2, 3, 8, 7.
#[tactic(auto, using(rules::proofs::Answering::answer_or, rules::proofs::Answering::answer_as), unfolding(rules::specs::Refusals::chain_refusal, rules::specs::Refusals::cubemap_refusal, rules::specs::Answers::cubemap_answer, rules::specs::Answers::facing_answer))]
pub fn sample_cubemap_rgb(
    kind: u32,
    width: u32,
    height: u32,
    texels: &[u32],
    directions: Directions,
    levels: Wholes,
) -> Result<Directions, Refusal>
    ensures answer { result ≡ cubemap_answer kind width height texels.now directions levels }
{
    let picture = Picture::new(kind, width, height)?;
    let layout = Layout::new(picture, texels.len())?;
    picture.check_cubemap()?;
    let met = facing(directions)?;
    let cube = Cube { layout: &layout };
    Ok(rgb_four(texels, cube.places(met, levels)))
}
