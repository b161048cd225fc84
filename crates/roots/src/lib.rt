// The square root behind a C name, so that it is compared alone. No part of the unit: the station's archive does not have it.
#![tactic(auto)]

ghost use Rattle.std.specs.Prelude.{◌≡◌};
ghost use Rattle.roots.specs.Alone.{root_alone};

use texel::root::sqrt;

// The root of x where x is finite and not negative, and x itself elsewhere.
#[unsafe(no_mangle)]
pub extern "C" fn swathecold_root(x: f32) -> f32
    ensures { result ≡ root_alone x }
{
    if 0.0 <= x && x <= f32::MAX {
        sqrt(x)
    } else {
        x
    }
}
