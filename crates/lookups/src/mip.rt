// The level that four steps ask for.
ghost use Rattle.std.specs.Prelude.{◌≡◌};
ghost use Rattle.rules.specs.Footprint.{mip_level_of};
ghost use Rattle.rules.specs.Answers.{mip_level_answer};

use levels::refusals::check_sides;
use levels::sizes::top_level;
use places::level::{Top, mip_level};
use places::refusals::check_finite;
use places::side::Side;
use rules::{Lanes, Refusal};

// The greatest level with 4 to its power at most the footprint, lowered to the top level.
pub fn mip_level_of(width: Side, height: Side, steps: Lanes) -> u32
    ensures { result ≡ mip_level_of width.texels height.texels steps }
{
    let top = Top {
        level: top_level(width.texels, height.texels),
    };
    mip_level(width, height, top, steps)
}

// The level of a picture that four steps ask for, 2, 5: the first two along the width, the last two along the height.
#[tactic(auto, using(rules::proofs::Answering::answer_or, rules::proofs::Answering::answer_as), unfolding(rules::specs::Refusals::mip_level_refusal, rules::specs::Answers::mip_level_answer))]
pub fn compute_mip_level(width: u32, height: u32, steps: Lanes) -> Result<u32, Refusal>
    ensures { result ≡ mip_level_answer width height steps }
{
    check_sides(width, height)?;
    check_finite(steps)?;
    let width = Side { texels: width };
    let height = Side { texels: height };
    Ok(mip_level_of(width, height, steps))
}
