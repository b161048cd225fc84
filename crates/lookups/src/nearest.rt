// The nearest lookup of four lanes, at the level that their steps ask for.
ghost use Rattle.std.specs.Prelude.{◌≡◌, length};
ghost use Rattle.rules.specs.Kinds.{faces_of, code_of};
ghost use Rattle.rules.specs.Sizes.{count};
ghost use Rattle.rules.specs.Refusals.{◌or_else◌, buffer_refusal, no_cubemap_refusal, sampler_refusal, coordinates_refusal, finite_refusal};
ghost use Rattle.rules.specs.Answers.{answer, refused, sample4_rgb_answer, sample4_alpha_answer};
ghost use Rattle.lookups.specs.Reads.{sample4_four};

use crate::mip::mip_level_of;
use lane::level::level_at;
use lane::nearest::nearest_places;
use lane::pixel::{opacity_four, rgb_four};
use levels::layout::Layout;
use levels::picture::Picture;
use places::coordinate::Coordinates;
use places::refusals::{check_coordinates, check_finite};
use places::side::Side;
use places::wrap::Wrapping;
use rules::{Directions, Four, Lanes, Refusal, Sampler};

// Where four lanes read, at the level that the steps ask for; which both calls share: 3, 8, 4, 5. In line: called, a lookup took 45
// instructions more.
#[tactic(auto, using(rules::proofs::Answering::answer_or, rules::proofs::Answering::answer_as))]
#[inline(always)]
fn sample4_places(
    picture: Picture,
    texels: &[u32],
    sampler: Sampler,
    u: Lanes,
    v: Lanes,
    steps: Lanes,
) -> Result<Four<usize>, Refusal>
    ensures { result ≡ answer (buffer_refusal (count (faces_of (code_of picture.kind)) picture.width picture.height) (length texels.now) or_else no_cubemap_refusal (code_of picture.kind) or_else sampler_refusal sampler or_else coordinates_refusal u v or_else finite_refusal steps) refused (Ok (sample4_four (code_of picture.kind) picture.width picture.height sampler u v steps)) }
{
    let layout = Layout::new(picture, texels.len())?;
    picture.check_no_cubemap()?;
    let by = Wrapping::try_from(sampler)?;
    check_coordinates(u, v)?;
    check_finite(steps)?;
    let width = Side {
        texels: picture.width,
    };
    let height = Side {
        texels: picture.height,
    };
    let level = mip_level_of(width, height, steps);
    let u = Coordinates { lanes: u };
    let v = Coordinates { lanes: v };
    Ok(nearest_places(level_at(&layout, level), by, u, v))
}

// The colours of four lanes, each that of the nearest texel, at the level that the steps ask for.
#[tactic(auto, using(rules::proofs::Answering::answer_as, crate::proofs::Answering::sample4_told), unfolding(rules::specs::Answers::sample4_rgb_answer))]
pub fn sample4_rgb(
    kind: u32,
    width: u32,
    height: u32,
    texels: &[u32],
    sampler: Sampler,
    u: Lanes,
    v: Lanes,
    steps: Lanes,
) -> Result<Directions, Refusal>
    ensures answer { result ≡ sample4_rgb_answer kind width height texels.now sampler u v steps }
{
    let picture = Picture::new(kind, width, height)?;
    let at = sample4_places(picture, texels, sampler, u, v, steps)?;
    Ok(rgb_four(texels, at))
}

// The alphas of four lanes, each that of the nearest texel, at the level that the steps ask for.
// Apart from `sample4_rgb`, since C names both and they answer different values; what they share is `sample4_places`.
#[tactic(auto, using(rules::proofs::Answering::answer_as, crate::proofs::Answering::sample4_told), unfolding(rules::specs::Answers::sample4_alpha_answer))]
pub fn sample4_alpha(
    kind: u32,
    width: u32,
    height: u32,
    texels: &[u32],
    sampler: Sampler,
    u: Lanes,
    v: Lanes,
    steps: Lanes,
) -> Result<Lanes, Refusal>
    ensures answer { result ≡ sample4_alpha_answer kind width height texels.now sampler u v steps }
{
    let picture = Picture::new(kind, width, height)?;
    let at = sample4_places(picture, texels, sampler, u, v, steps)?;
    Ok(opacity_four(texels, at))
}
