// The bilinear lookup: the four texels around a coordinate, blended by the two weights.
ghost use Rattle.std.specs.Prelude.{◌≡◌};
ghost use Rattle.rules.specs.Lanes.{lanes_of};
ghost use Rattle.rules.specs.Bilinear.{blend_of};
ghost use Rattle.places.specs.Sized.{Below};
ghost use Rattle.lane.specs.Reading.{squares_at, AllWithin, blended_rgb, blended_alpha};

use crate::pixel::{opacity_four, rgb_four};
use crate::reading::places;
use choice::lanes::{each, pairs};
use places::axis::four_axes;
use places::blend::{blend, blend_alpha, weigh};
use places::coordinate::Coordinates;
use places::place::Level;
use places::wrap::Wrapping;
use rules::{Corners, Directions, Four, Lanes, Weights, Wholes};

// The places of four lanes, each on its own face, and the weights: the lanes side by side.
#[tactic(auto, unfolding(crate::specs::Reading::squares_at))]
pub fn squares(
    on: Level,
    faces: Wholes,
    by: Wrapping,
    u: Coordinates,
    v: Coordinates,
) -> Corners<Four<usize>, Lanes>
    requires { Below on.plane.faces faces }
    ensures { result ≡ squares_at on.plane faces by.s by.t u.lanes v.lanes }
{
    let width = on.width();
    let height = on.height();
    let x = four_axes(by.s, u, width);
    let y = four_axes(by.t, v, height);
    Corners {
        p00: places(on, faces, x.first, y.first),
        p10: places(on, faces, x.second, y.first),
        p01: places(on, faces, x.first, y.second),
        p11: places(on, faces, x.second, y.second),
        fx: x.part,
        fy: y.part,
    }
}

// One channel of four lanes, each blended by its own weights.
fn blend_lanes(w: Four<Weights>, p00: Lanes, p10: Lanes, p01: Lanes, p11: Lanes) -> Lanes
    ensures { result ≡ lanes_of (blend_of w.a p00.a p10.a p01.a p11.a) (blend_of w.b p00.b p10.b p01.b p11.b) (blend_of w.c p00.c p10.c p01.c p11.c) (blend_of w.d p00.d p10.d p01.d p11.d) }
{
    // Four lines: the corners are read side by side, so a lane's four in one value would be put together by four lines as well.
    Lanes {
        a: blend(w.a, p00.a, p10.a, p01.a, p11.a),
        b: blend(w.b, p00.b, p10.b, p01.b, p11.b),
        c: blend(w.c, p00.c, p10.c, p01.c, p11.c),
        d: blend(w.d, p00.d, p10.d, p01.d, p11.d),
    }
}

// The colours of four lanes, from their places: all first corners are read, then all second ones, and each channel is blended.
// Places and texels come apart, as to `rgb_four`.
#[tactic(auto, unfolding(crate::specs::Reading::blended_rgb, crate::specs::Reading::read_rgb, rules::specs::Bilinear::corners_rgb, rules::specs::Bilinear::blend_rgb))]
pub fn squares_rgb(texels: &[u32], f: Corners<Four<usize>, Lanes>) -> Directions
    requires { AllWithin texels.now f }
    ensures { result ≡ blended_rgb texels.now f }
{
    let w = each(pairs(f.fx, f.fy), |(x, y)| weigh(x, y));
    let p00 = rgb_four(texels, f.p00);
    let p10 = rgb_four(texels, f.p10);
    let p01 = rgb_four(texels, f.p01);
    let p11 = rgb_four(texels, f.p11);
    Directions {
        x: blend_lanes(w, p00.x, p10.x, p01.x, p11.x),
        y: blend_lanes(w, p00.y, p10.y, p01.y, p11.y),
        z: blend_lanes(w, p00.z, p10.z, p01.z, p11.z),
    }
}

// The alphas of four lanes, from their places: all first corners are read, then all second ones, and each lane is blended.
// Apart from `squares_rgb`, since C names both lookups and an alpha is blended by another rule, along x first.
#[tactic(auto, unfolding(crate::specs::Reading::blended_alpha, crate::specs::Reading::read_alpha, rules::specs::Bilinear::corners_alpha))]
pub fn squares_alpha(texels: &[u32], f: Corners<Four<usize>, Lanes>) -> Lanes
    requires { AllWithin texels.now f }
    ensures { result ≡ blended_alpha texels.now f }
{
    let p00 = opacity_four(texels, f.p00);
    let p10 = opacity_four(texels, f.p10);
    let p01 = opacity_four(texels, f.p01);
    let p11 = opacity_four(texels, f.p11);
    // Four lines, as in `blend_lanes`.
    Lanes {
        a: blend_alpha(f.fx.a, f.fy.a, p00.a, p10.a, p01.a, p11.a),
        b: blend_alpha(f.fx.b, f.fy.b, p00.b, p10.b, p01.b, p11.b),
        c: blend_alpha(f.fx.c, f.fy.c, p00.c, p10.c, p01.c, p11.c),
        d: blend_alpha(f.fx.d, f.fy.d, p00.d, p10.d, p01.d, p11.d),
    }
}
