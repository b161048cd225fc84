// The place of a texel on a face, and the basis there.
ghost use Rattle.std.specs.Prelude.{◌≡◌, ◌≤◌, ◌<◌};
ghost use Rattle.rules.specs.Floats.{Between, minus1, one32};
ghost use Rattle.rules.specs.Irradiance.{omega_of, centre_of, distance_of, towards, place_basis};

use crate::root::{SquaredDistance, settled};
use rules::{Basis, Vector};

// texel_omega: (2.0 / width) * (2.0 / height).
#[tactic(auto, unfolding(rules::specs::Irradiance::omega_of))]
pub fn texel_omega(width: u32, height: u32) -> f32
    requires { (width ≤ 4096) × (height ≤ 4096) }
    ensures { result ≡ omega_of width height }
{
    (2.0 / (width as f32)) * (2.0 / (height as f32))
}

// Where a texel's centre lies along a side of its face.
#[derive(Clone, Copy)]
pub struct Coordinate {
    pub at: f32,
    ghost on_face: { Between minus1 at one32 },
}

// ((x + 0.5) / side) * 2.0 - 1.0.
#[tactic(auto, unfolding(rules::specs::Irradiance::centre_of))]
pub fn centre(side: u32, x: u32) -> Coordinate
    requires { (x < side) × (side ≤ 4096) }
    ensures { result.at ≡ centre_of side x }
{
    Coordinate {
        at: (((x as f32) + 0.5) / (side as f32)) * 2.0 - 1.0,
    }
}

// 1 + u*u + v*v, left to right.
#[tactic(auto, unfolding(rules::specs::Irradiance::distance_of))]
pub fn distance(u: f32, v: f32) -> f32
    ensures { result ≡ distance_of u v }
{
    1.0 + u * u + v * v
}

// The same of a place on a face.
#[tactic(auto, using(crate::proofs::Spans::distance_in))]
pub fn squared_distance(u: Coordinate, v: Coordinate) -> SquaredDistance
    ensures { result.d ≡ distance_of u.at v.at }
{
    SquaredDistance {
        d: distance(u.at, v.at),
    }
}

// The direction of a place, before it is divided. Faces are numbers: document 01 numbers them, and 0 to 5 are counted.
#[tactic(auto, unfolding(rules::specs::Irradiance::towards))]
fn towards(face: u32, u: f32, v: f32) -> Vector<f32>
    ensures { result ≡ towards face u v }
{
    match face {
        0 => Vector {
            x: 1.0,
            y: -v,
            z: -u,
        },
        1 => Vector {
            x: -1.0,
            y: -v,
            z: u,
        },
        2 => Vector { x: u, y: 1.0, z: v },
        3 => Vector {
            x: u,
            y: -1.0,
            z: -v,
        },
        4 => Vector {
            x: u,
            y: -v,
            z: 1.0,
        },
        _ => Vector {
            x: -u,
            y: -v,
            z: -1.0,
        },
    }
}

// The basis at a place of a face, times the weight; `guess` is one at the root.
#[tactic(auto, unfolding(rules::specs::Irradiance::weight_of, rules::specs::Irradiance::divided_by, rules::specs::Irradiance::basis_of, rules::specs::Irradiance::place_basis))]
pub fn place_basis(omega: f32, face: u32, u: Coordinate, v: Coordinate, guess: f64) -> Basis<f32>
    ensures { result ≡ place_basis omega face u.at v.at }
{
    let distance = squared_distance(u, v);
    let r = settled(distance, guess);
    let weight = omega / (distance.d * r);
    let n = towards(face, u.at, v.at);
    Basis {
        constant: 0.282095 * weight,
        y: 0.488603 * (n.y / r) * weight,
        z: 0.488603 * (n.z / r) * weight,
        x: 0.488603 * (n.x / r) * weight,
    }
}
