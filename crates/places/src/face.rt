// A direction to a face of the cube and the place on it.
ghost use Rattle.std.specs.Prelude.{◌≡◌, ◌≤◌, T};
ghost use Rattle.rules.specs.Floats.{magnitude as magnitude_of};
ghost use Rattle.rules.specs.Faces.{direction_taken, sign_of, odd_of, on_face, spot_of};
ghost use Rattle.places.specs.Spots.{sizes_taken, OnCube};

use choice::pick;
use rules::{Spot, Vector};

// 2^-60 and 2^60.
const LOW: f32 = 0.0000000000000000008673617379884035;

const HIGH: f32 = 1152921504606846976.0;

// |x|; of -0 it is -0, which compares as 0 does; the library's abs is 0 there.
#[tactic(auto, unfolding(rules::specs::Floats::magnitude))]
fn magnitude(x: f32) -> f32
    ensures { result ≡ magnitude_of x }
{
    if x < 0.0 { -x } else { x }
}

// The magnitudes of a direction's components.
fn sizes(d: Vector<f32>) -> Vector<f32>
    ensures { (result.x ≡ magnitude_of d.x) × (result.y ≡ magnitude_of d.y) × (result.z ≡ magnitude_of d.z) }
{
    Vector {
        x: magnitude(d.x),
        y: magnitude(d.y),
        z: magnitude(d.z),
    }
}

// Whether each magnitude is at most 2^60, which neither a NaN's nor an infinity's is, and one is 2^-60 at least.
fn sizes_taken(size: Vector<f32>) -> bool
    ensures { result ≡ sizes_taken size.x size.y size.z }
{
    let low = (size.x >= LOW) | ((size.y >= LOW) | (size.z >= LOW));
    (size.x <= HIGH) & ((size.y <= HIGH) & ((size.z <= HIGH) & low))
}

// Whether a direction is taken: no component is a NaN or an infinity, and the largest magnitude lies in 2^-60 to 2^60.
pub fn direction_taken(x: f32, y: f32, z: f32) -> bool
    ensures { result ≡ direction_taken x y z }
{
    let size = sizes(Vector { x, y, z });
    sizes_taken(size)
}

// 1 for a component >= 0, -0 included, and -1 for one below.
#[tactic(auto, unfolding(rules::specs::Faces::sign_of))]
fn sign(x: f32) -> f32
    ensures { result ≡ sign_of x }
{
    if x >= 0.0 { 1.0 } else { -1.0 }
}

// 0 for a component >= 0, -0 included, and 1 for one below: the odd face.
// A number, as document 01 numbers the faces: they are counted and handed out to C.
#[tactic(auto, unfolding(rules::specs::Faces::odd_of))]
fn odd(x: f32) -> u32
    ensures { (result ≡ odd_of x) × (result ≤ 1) }
{
    if x >= 0.0 { 0 } else { 1 }
}

// 0.5 * (q/major + 1).
fn on_face(q: f32, major: f32) -> f32
    ensures { result ≡ on_face q major }
{
    0.5 * (q / major + 1.0)
}

// Where a direction meets the cube, one that is taken on its face.
// X if |x| >= |y| and |x| >= |z|; else Y if |y| > |x| and |y| >= |z|; else Z.
// (u, v) before scaling: (-z*sx, -y), (x, z*sy), (x*sz, -y).
pub fn meet(x: f32, y: f32, z: f32) -> Spot
    ensures at { result ≡ spot_of x y z }
    ensures on { T (direction_taken x y z) → OnCube result }
{
    let size = sizes(Vector { x, y, z });
    let on_x = (size.x >= size.y) & (size.x >= size.z);
    let on_y = (size.y > size.x) & (size.y >= size.z);
    let q = pick(on_x, -z * sign(x), pick(on_y, x, x * sign(z)));
    let p = pick(on_x, -y, pick(on_y, z * sign(y), -y));
    let major = pick(on_x, size.x, pick(on_y, size.y, size.z));
    Spot {
        face: pick(on_x, odd(x), pick(on_y, 2 + odd(y), 4 + odd(z))),
        u: on_face(q, major),
        v: on_face(p, major),
    }
}
