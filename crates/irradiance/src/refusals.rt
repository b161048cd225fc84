// What the call refuses: each refusal is given exactly when its test fails.
ghost use Rattle.std.specs.Prelude.{◌≡◌};
ghost use Rattle.rules.specs.Refusals.{irradiance_refusal};
ghost use Rattle.rules.specs.Answers.{told};

use rules::Refusal;
use texture::level_sizes;

// 1, 2, 3 (level 0: six faces for a cubemap, one for the others), 8: every picture that is taken has a level 0.
#[tactic(auto, using(rules::proofs::RefusingRanges::level0_told, rules::proofs::Answering::answer_or), unfolding(rules::specs::Refusals::irradiance_refusal))]
pub fn check_irradiance(kind: u32, width: u32, height: u32, texels: usize) -> Result<(), Refusal>
    ensures { result ≡ told (irradiance_refusal kind width height texels) }
{
    level_sizes(kind, width, height, 0)?;
    let face = (height as usize) * (width as usize);
    let cube = 6 * face;
    match kind {
        3 if texels < cube => Err(Refusal::ShortBuffer),
        3 => Ok(()),
        _ if texels < face => Err(Refusal::ShortBuffer),
        _ => Err(Refusal::KindNotTaken),
    }
}
