// Four values blended by the two weights.
ghost use Rattle.std.specs.Prelude.{◌≡◌};
ghost use Rattle.rules.specs.Bilinear.{weights_of, blend_of, mix_of, blend_alpha};

use rules::Weights;

// The products of the weights fx and 1 - fx, fy and 1 - fy.
#[tactic(auto, unfolding(rules::specs::Bilinear::weights_of))]
pub fn weigh(fx: f32, fy: f32) -> Weights
    ensures { result ≡ weights_of fx fy }
{
    let gx = 1.0 - fx;
    let gy = 1.0 - fy;
    Weights {
        w00: gx * gy,
        w10: fx * gy,
        w01: gx * fy,
        w11: fx * fy,
    }
}

// RGB adds p00, p10, p01, p11, each times its weight product, left to right.
#[tactic(auto, unfolding(rules::specs::Bilinear::blend_of))]
pub fn blend(w: Weights, p00: f32, p10: f32, p01: f32, p11: f32) -> f32
    ensures { result ≡ blend_of w p00 p10 p01 p11 }
{
    p00 * w.w00 + p10 * w.w10 + p01 * w.w01 + p11 * w.w11
}

// a * (1 - f) + b * f.
fn mix(a: f32, b: f32, f: f32) -> f32
    ensures { result ≡ mix_of a b f }
{
    a * (1.0 - f) + b * f
}

// Alpha blends along x first and then along y.
#[tactic(auto, unfolding(rules::specs::Bilinear::blend_alpha))]
pub fn blend_alpha(fx: f32, fy: f32, p00: f32, p10: f32, p01: f32, p11: f32) -> f32
    ensures { result ≡ blend_alpha fx fy p00 p10 p01 p11 }
{
    mix(mix(p00, p10, fx), mix(p01, p11, fx), fy)
}
