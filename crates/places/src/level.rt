// The footprint of four steps, and the level that it asks for.
ghost use Rattle.std.specs.Prelude.{◌≡◌, ◌≤◌};
ghost use Rattle.rules.specs.Sizes.{top as top_of};
ghost use Rattle.rules.specs.Footprint.{footprint_of, four_of, mip_level_of};

use crate::side::Side;
use choice::pick;
use rules::Lanes;

// The top level of a picture.
#[derive(Clone, Copy)]
pub struct Top {
    pub level: u32,
    pub ghost is: { level ≤ 12 },
}

// X, Y the first two steps times width and Z, W the last two times height: ((X*X + Z*Z) + (Y*Y + W*W)) * 0.5.
// Sides as numbers: a side of 0 texels has a footprint as well.
#[tactic(auto, unfolding(rules::specs::Footprint::footprint_of))]
pub fn footprint(width: u32, height: u32, steps: Lanes) -> f32
    requires { (width ≤ 4096) × (height ≤ 4096) }
    ensures { result ≡ footprint_of width height steps }
{
    let wide = width as f32;
    let high = height as f32;
    let x = steps.a * wide;
    let y = steps.b * wide;
    let z = steps.c * high;
    let w = steps.d * high;
    ((x * x + z * z) + (y * y + w * w)) * 0.5
}

// The greatest m up to top with 4^m at most max(footprint, 1): half of the exponent of that maximum, which is 1 for a NaN.
fn greatest_four(footprint: f32, top: Top) -> u32
    ensures { result ≡ four_of top.level footprint }
{
    let held = pick(1.0 < footprint, footprint, 1.0);
    ((f32::to_bits(held) / 8388608 - 127) / 2).min(top.level)
}

// The greatest m with 4^m at most max(footprint, 1), lowered to the top level.
// Sides and steps are the call's own arguments, taken as they come: a type of them would be made for two functions in a row.
#[tactic(auto, unfolding(rules::specs::Footprint::mip_level_of))]
pub fn mip_level(width: Side, height: Side, top: Top, steps: Lanes) -> u32
    requires { top.level ≡ top_of width.texels height.texels }
    ensures { result ≡ mip_level_of width.texels height.texels steps }
{
    greatest_four(footprint(width.texels, height.texels, steps), top)
}
