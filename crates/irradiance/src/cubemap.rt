// The cubemap whose coefficients are worked out, of which nothing is refused.
ghost use Rattle.std.specs.Prelude.{length};
ghost use Rattle.rules.proofs.RefusingIrradiance.{Cubed};

use crate::place::texel_omega;
use crate::refusals::check_irradiance;
use rules::Refusal;

// The texels of level 0's six faces, and perhaps more.
#[derive(Clone, Copy)]
pub struct Cubemap<'a> {
    pub width: u32,
    pub height: u32,
    pub texels: &'a [u32],
    pub ghost cubed: { Cubed width height (length texels.now) },
}

impl<'a> Cubemap<'a> {
    ghost use Rattle.std.specs.Prelude.{◌≡◌, IfOk};
    ghost use Rattle.rules.specs.Irradiance.{omega_of};
    ghost use Rattle.rules.specs.Refusals.{irradiance_refusal};
    ghost use Rattle.rules.specs.Answers.{done, told};

    // The call's tests.
    #[tactic(auto, using(rules::proofs::Answering::answer_as))]
    pub fn new(
        kind: u32,
        width: u32,
        height: u32,
        texels: &'a [u32],
    ) -> Result<Cubemap<'a>, Refusal>
        ensures told { done result ≡ told (irradiance_refusal kind width height (length texels.now)) }
        ensures is { IfOk result (λ c. (c.width ≡ width) × (c.height ≡ height) × (c.texels.now ≡ texels.now)) }
    {
        check_irradiance(kind, width, height, texels.len())?;
        Ok(Cubemap {
            width,
            height,
            texels,
        })
    }

    // Of its sides.
    pub fn texel_omega(&self) -> f32
        ensures { result ≡ omega_of self.now.width self.now.height }
    {
        texel_omega(self.width, self.height)
    }
}
