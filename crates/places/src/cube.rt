// The texel along a face's side, and the two levels of a fractional level.
ghost use Rattle.std.specs.Prelude.{◌≡◌, ◌≤◌, ◌<◌, T};
ghost use Rattle.std.specs.Float.Ieee.Scale.{finite};
ghost use Rattle.rules.specs.Floats.{Between, zero32, one32};
ghost use Rattle.rules.specs.Cubemap.{cube_texel, pairing_of, lerp_of};

use crate::level::Top;
use crate::side::Side;
use rules::Pairing;

// The nearest cubemap texel: round(u * (width - 1)), a half to the even neighbour.
pub fn cube_texel(u: f32, width: Side) -> usize
    requires { Between zero32 u one32 }
    ensures { (result ≡ cube_texel u width.texels) × (result < width.texels) }
{
    texel::whole::round_even(u * ((width.texels - 1) as f32)) as usize
}

// Lower level l, upper min(l + 1, top), and how far the level lies between them.
pub fn pairing(fraction: f32, top: Top) -> Pairing<u32, f32>
    requires { T (finite fraction) }
    ensures { (result ≡ pairing_of fraction top.level) × (result.low ≤ top.level) × (result.high ≤ top.level) × Between zero32 result.part one32 }
{
    let held = fraction.clamp(0.0, top.level as f32);
    let l = texel::whole::floor_near(held);
    let low = l as u32;
    Pairing {
        low,
        high: (low + 1).min(top.level),
        part: held - l,
    }
}

// c0 + (c1 - c0) * t.
pub fn lerp(c0: f32, c1: f32, t: f32) -> f32
    ensures { result ≡ lerp_of c0 c1 t }
{
    c0 + (c1 - c0) * t
}
