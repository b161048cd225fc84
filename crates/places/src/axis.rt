// The texel numbers of four lanes along one side.
ghost use Rattle.std.specs.Prelude.{◌≡◌, T};
ghost use Rattle.rules.specs.Refusals.{coordinate_taken};
ghost use Rattle.rules.specs.Whole.{floor_of};
ghost use Rattle.rules.specs.Places.{nearest_of};
ghost use Rattle.places.specs.Stands.{Counted, nearests_of, Stands, axes_of};

use crate::coordinate::Coordinates;
use crate::side::Side;
use crate::wrap::wrap_four;
use choice::lanes::each;
use rules::{Axis, Lanes, Mode, Wholes};

// Nearest: t = floor(u * width).
fn nearest_texel(u: f32, width: Side) -> f32
    requires { T (coordinate_taken u) }
    ensures { Counted result width.texels × (floor_of result ≡ nearest_of u width.texels) }
{
    texel::whole::floor(u * (width.texels as f32))
}

// The texels of the nearest lookup along a side: t of four lanes, wrapped.
#[tactic(auto, unfolding(crate::specs::Stands::nearests_of, crate::specs::Stands::wraps_of))]
pub fn nearest_four(mode: Mode, u: Coordinates, width: Side) -> Wholes
    ensures { result ≡ nearests_of mode u.lanes width.texels }
{
    let t = each(u.lanes, |x| nearest_texel(x, width));
    wrap_four(mode, t, width)
}

// Where a coordinate stands: its texel number, the next, and how far it lies above.
// x_f = u * width - 0.5, x0 = floor, x1 = x0 + 1; fx = x_f - x0.
fn standing(u: f32, width: Side) -> Axis<f32, f32>
    requires { T (coordinate_taken u) }
    ensures { Stands u width.texels result }
{
    let x = u * (width.texels as f32) - 0.5;
    let first = texel::whole::floor(x);
    Axis {
        first,
        second: first + 1.0,
        part: x - first,
    }
}

// x0 and x1 of four lanes, wrapped; and fx.
#[tactic(auto, unfolding(crate::specs::Stands::axes_of, crate::specs::Stands::wraps_of, rules::specs::Bilinear::axis_of))]
pub fn four_axes(mode: Mode, u: Coordinates, width: Side) -> Axis<Wholes, Lanes>
    ensures { result ≡ axes_of mode u.lanes width.texels }
{
    let at = each(u.lanes, |x| standing(x, width));
    Axis {
        first: wrap_four(mode, each(at, |x| x.first), width),
        second: wrap_four(mode, each(at, |x| x.second), width),
        part: each(at, |x| x.part),
    }
}
