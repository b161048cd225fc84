// Linear and Cubemap in nearest mode: (s + 2) / 4 of each channel, s the sum of its four bytes, by whole numbers. Two channels are added at
// once, in the halves of one number.
ghost use Rattle.std.specs.Prelude.{◌≡◌, ◌+◌, ◌*◌, ◌/◌, ◌%◌, ◌<◌, ◌≤◌};
ghost use Rattle.rules.specs.declared.Packing.TheVariants.{Nearest};
ghost use Rattle.rules.specs.Reducing.{linear_of};

use crate::above::Standing;
use crate::channel::Quad;
use crate::rule::Reduce;

#[derive(Clone, Copy)]
pub struct Rounded;

// Two channels that lie 16 bits apart, one in each half: green and alpha of a texel, red and blue of a texel divided by 256.
fn halves(t: u32) -> u32
    ensures { result ≡ t / 65536 % 256 * 65536 + t % 256 }
{
    t / 65536 % 256 * 65536 + t % 256
}

// Both halves of four added up, and 2.
fn sums(s: Quad<u32>) -> u32
    requires { (s.p00 ≤ 16711935) × (s.p10 ≤ 16711935) × (s.p01 ≤ 16711935) × (s.p11 ≤ 16711935) }
    ensures { result ≡ s.p00 + s.p10 + s.p01 + s.p11 + 131074 }
{
    s.p00 + s.p10 + s.p01 + s.p11 + 131074
}

// A quarter of each half.
fn quarters(s: u32) -> u32
    requires { (s / 65536 < 1024) × (s % 65536 < 1024) }
    ensures { result ≡ s / 65536 / 4 * 65536 + s % 65536 / 4 }
{
    s / 262144 * 65536 + s / 4 % 256
}

impl Reduce for Rounded {
    ghost rule = { λ _. linear_of Nearest };

    #[inline(always)]
    fn reduced(&self, q: Quad<u32>) -> u32 {
        quarters(sums(q.map(|t| halves(t / 256)))) * 256 + quarters(sums(q.map(halves)))
    }

    fn by_wholes(&self) -> bool {
        true
    }

    // All are looked at, so that they can be looked at several at once.
    fn all_right(&self, standing: Standing) -> bool {
        let mut unlike = 0u32;
        for (x, texel) in standing.texels.iter().enumerate() {
            unlike += (self.reduced(standing.above.pair(x)) != *texel) as u32;
        }
        unlike == 0
    }
}
