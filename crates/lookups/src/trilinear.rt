// The trilinear cubemap lookup of four lanes, each between two levels of its own.
ghost use Rattle.std.specs.Prelude.{◌≡◌};
ghost use Rattle.rules.specs.Answers.{trilinear_answer};

use crate::facing::facing;
use lane::cubemap::Cube;
use lane::pixel::rgb_four;
use lane::trilinear::{lerp_four, level_places, two_levels};
use levels::layout::Layout;
use levels::picture::Picture;
use places::level::Top;
use places::refusals::check_finite;
use rules::{Directions, Lanes, Refusal};

// The colours of four lanes, each blended from the two levels around its fractional level: 1, 2, 3, 8, 7, 5.
#[tactic(auto, using(rules::proofs::Answering::answer_or, rules::proofs::Answering::answer_as), unfolding(rules::specs::Refusals::chain_refusal, rules::specs::Refusals::cubemap_refusal, rules::specs::Refusals::trilinear_refusal, rules::specs::Answers::trilinear_answer, rules::specs::Answers::facing_answer))]
pub fn sample_cubemap_trilinear_rgb(
    kind: u32,
    width: u32,
    height: u32,
    texels: &[u32],
    directions: Directions,
    levels: Lanes,
) -> Result<Directions, Refusal>
    ensures answer { result ≡ trilinear_answer kind width height texels.now directions levels }
{
    let picture = Picture::new(kind, width, height)?;
    let layout = Layout::new(picture, texels.len())?;
    picture.check_cubemap()?;
    let met = facing(directions)?;
    check_finite(levels)?;
    let top = Top {
        level: picture.top_level(),
    };
    let m = two_levels(levels, top);
    let at = level_places(Cube { layout: &layout }, met, m);
    let low = rgb_four(texels, at.low);
    let high = rgb_four(texels, at.high);
    Ok(lerp_four(low, high, m.part))
}
