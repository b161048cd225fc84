// The square root of a place's distance, from 1 to 3: a guess, and whole numbers that say whether it is the rounded root.
ghost use Rattle.std.specs.Prelude.{◌≡◌, true, ◌≤◌, ◌<◌};
ghost use Rattle.rules.specs.Floats.{Between, one32};
ghost use Rattle.rules.specs.Irradiance.{three32};
ghost use Rattle.rules.specs.Root.{sqrt_of};
ghost use Rattle.texel.specs.Digits.{Rounded};

// 1 + u*u + v*v, for coordinates of a face.
#[derive(Clone, Copy)]
pub struct SquaredDistance {
    pub d: f32,
    ghost in_three: { Between one32 d three32 },
}

// A guess at the root: one over it by a parabola, corrected twice, then the root itself corrected once. 2^29 is added, so that
// the last place is 2^-23, that of the rounded root. Nothing is promised of it.
pub fn guess(distance: SquaredDistance) -> f64 {
    let x = distance.d as f64;
    let a = 1.417509 + x * (0.07703182 * x - 0.50926477);
    let b = a * (1.5 - 0.5 * x * a * a);
    let c = b * (1.5 - 0.5 * x * b * b);
    let r = x * c;
    r + (x - r * r) * (0.5 * c) + 536870912.0
}

// Whether r is the whole number nearest to the root of n: the root lies within a half of it, and never half-way.
fn is_nearest(r: u64, n: u64) -> bool
    requires { (8388608 ≤ r) × (r < 16777216) }
    ensures { result ≡ true → Rounded n r }
{
    let square = r * r;
    square - r < n && n <= square + r
}

// The root, correctly rounded. Where the guess is not the one, the lower crate's root is asked.
pub fn settled(distance: SquaredDistance, guess: f64) -> f32
    ensures { result ≡ sqrt_of distance.d }
{
    let d = distance.d;
    if guess >= 536870912.0 {
        let digits = f64::to_bits(guess) % 8388608 + 8388608;
        let b = f32::to_bits(d) as u64;
        let n = (b % 8388608 + 8388608) * 8388608 * (b / 8388608 - 126);
        if is_nearest(digits, n) {
            return f32::from_bits((1056964608 + digits) as u32);
        }
    }
    texel::root::sqrt(d)
}
