// The call: the sums of level 0, with the constants folded in.
ghost use Rattle.std.specs.Prelude.{◌≡◌};
ghost use Rattle.rules.specs.Irradiance.{times_both, folded_of};
ghost use Rattle.rules.specs.Answers.{irradiance_answer};

use crate::cubemap::Cubemap;
use crate::tones::Tones;
use rules::{Basis, Refusal, Rgb, Sh4};

const PI: f32 = 3.1415927;

// A colour times one number, and then times another.
#[tactic(auto, unfolding(rules::specs::Irradiance::times_both))]
fn times_both(a: f32, b: f32, c: Rgb) -> Rgb
    ensures { result ≡ times_both a b c }
{
    Rgb {
        r: c.r * a * b,
        g: c.g * a * b,
        b: c.b * a * b,
    }
}

// The first times PI and the others times 2.0 * PI / 3.0, then all times the basis constants again.
#[tactic(auto, unfolding(rules::specs::Irradiance::folded_of))]
fn folded(s: Sh4) -> Sh4
    ensures { result ≡ folded_of s }
{
    let others = 2.0 * PI / 3.0;
    Basis {
        constant: times_both(PI, 0.282095, s.constant),
        y: times_both(others, 0.488603, s.y),
        z: times_both(others, 0.488603, s.z),
        x: times_both(others, 0.488603, s.x),
    }
}

// The four irradiance coefficients of each colour of a cubemap's level 0.
#[tactic(auto, using(rules::proofs::Answering::answer_as), unfolding(rules::specs::Answers::irradiance_answer, rules::specs::Irradiance::irradiance_of))]
pub fn irradiance_sh4(kind: u32, width: u32, height: u32, texels: &[u32]) -> Result<Sh4, Refusal>
    ensures { result ≡ irradiance_answer kind width height texels.now }
{
    let cubemap = Cubemap::new(kind, width, height, texels)?;
    Ok(folded(cubemap.sum_faces(&Tones::new())))
}
