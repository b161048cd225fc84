// The lighting coefficients, as C calls them.
ghost use Rattle.std.specs.Prelude.{◌≡◌};
ghost use Rattle.rules.specs.Refusals.{number_in};
ghost use Rattle.rules.specs.Answers.{irradiance_answer};
ghost use Rattle.station.specs.Written.{handed, light_words};

use crate::written::hand_out;

pub fn swathecold_irradiance_sh4(
    kind: u32,
    width: u32,
    height: u32,
    texels: &[u32],
    sh: &mut [f32; 12],
) -> u32
    ensures number { result ≡ number_in (irradiance_answer kind width height texels.now) }
    ensures writes { sh.new ≡ handed light_words (irradiance_answer kind width height texels.now) sh.old }
{
    hand_out(irradiance::irradiance_sh4(kind, width, height, texels), sh)
}
