// The lighting coefficients, exported.
ghost use Rattle.std.specs.Prelude.{◌≡◌};
ghost use Rattle.rules.specs.Refusals.{number_in};
ghost use Rattle.rules.specs.Answers.{irradiance_answer};
ghost use Rattle.station.specs.Written.{handed, light_words};

#[unsafe(no_mangle)]
pub extern "C" fn swathecold_irradiance_sh4(
    kind: u32,
    width: u32,
    height: u32,
    texels: &[u32],
    sh: &mut [f32; 12],
) -> u32
    ensures number { result ≡ number_in (irradiance_answer kind width height texels.now) }
    ensures writes { sh.new ≡ handed light_words (irradiance_answer kind width height texels.now) sh.old }
{
    station::light::swathecold_irradiance_sh4(kind, width, height, texels, sh)
}
