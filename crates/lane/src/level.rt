// A level of a chain of which it is known where each level starts.
ghost use Rattle.std.specs.Prelude.{◌≡◌, ◌≤◌};
ghost use Rattle.rules.specs.Kinds.{code_of};
ghost use Rattle.rules.specs.Sizes.{top};
ghost use Rattle.rules.specs.Places.{plane_of};

use levels::layout::Layout;
use places::place::Level;

// A level of the picture: a `Plane` of the crate levels as a `Level` of places, which do not stand on each other.
// A number, as a `PictureLevel` has a picture of its own: beside a layout each function would ask instead that both are of one picture.
pub fn level_at(layout: &Layout, level: u32) -> Level
    requires { level ≤ top layout.now.picture.width layout.now.picture.height }
    ensures { result.plane ≡ plane_of (code_of layout.now.picture.kind) layout.now.picture.width layout.now.picture.height level }
{
    Level {
        plane: layout.plane(level),
    }
}
