// What a texel is to a lookup: its channels unpacked.
ghost use Rattle.std.specs.Prelude.{◌≡◌};
ghost use Rattle.rules.specs.Places.{rgb_of, opacity_of};
ghost use Rattle.lane.specs.Reading.{Inside, read_rgb, read_alpha};

use choice::lanes::each;
use rules::{Directions, Four, Lanes, Rgb};
use texel::bytes::{alpha, blue, green, red};
use texel::packing::unpack;

// A texel's colour.
#[tactic(auto, unfolding(rules::specs::Places::rgb_of))]
pub fn rgb(texel: u32) -> Rgb
    ensures { result ≡ rgb_of texel }
{
    Rgb {
        r: unpack(red(texel)),
        g: unpack(green(texel)),
        b: unpack(blue(texel)),
    }
}

// A texel's alpha.
#[tactic(auto, unfolding(rules::specs::Places::opacity_of))]
pub fn opacity(texel: u32) -> f32
    ensures { result ≡ opacity_of texel }
{
    unpack(alpha(texel))
}

// The colours of four lanes, from their places.
// Places come from the layout and texels from the caller: a value of both would be put together in each lookup, to be taken apart at once.
#[tactic(auto, unfolding(crate::specs::Reading::read_rgb))]
pub fn rgb_four(texels: &[u32], at: Four<usize>) -> Directions
    requires { Inside texels.now at }
    ensures { result ≡ read_rgb texels.now at }
{
    let colours = each(at, |i| rgb(texels[i]));
    Directions {
        x: each(colours, |c| c.r),
        y: each(colours, |c| c.g),
        z: each(colours, |c| c.b),
    }
}

// The alphas of four lanes, from their places, which are asked as those of `rgb_four`.
// Apart from it, since C names both lookups and a colour and an alpha are read by different rules.
#[tactic(auto, unfolding(crate::specs::Reading::read_alpha))]
pub fn opacity_four(texels: &[u32], at: Four<usize>) -> Lanes
    requires { Inside texels.now at }
    ensures { result ≡ read_alpha texels.now at }
{
    each(at, |i| opacity(texels[i]))
}
