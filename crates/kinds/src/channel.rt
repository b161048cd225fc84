// Four of a thing, texels or one channel of each, and a texel of one channel's rule.
ghost use Rattle.std.specs.Prelude.{◌≡◌};
ghost use Rattle.rules.specs.Floats.{mean_of};
ghost use Rattle.rules.specs.Reducing.{each_of};
ghost use Rattle.kinds.specs.Quads.{Each, Follows};

use texel::bytes::{alpha, blue, green, red, rgba};

// What stands in the four texels that one takes the place of.
#[derive(Clone, Copy)]
pub struct Quad<T> {
    pub p00: T,
    pub p10: T,
    pub p01: T,
    pub p11: T,
}

impl<T: Copy> Quad<T> {
    // The same worked out of each. Beside `choice::lanes::each`, which is of lanes: this crate does not stand on that one.
    pub fn map<U, F: Fn(T) -> U>(self, f: F) -> Quad<U>
        requires { F.IsAlwaysCallable f }
        ensures { Each (F.post f) self result }
    {
        Quad {
            p00: f(self.p00),
            p10: f(self.p10),
            p01: f(self.p01),
            p11: f(self.p11),
        }
    }
}

// The sum of four numbers, left to right, then / 4.0.
pub fn mean(p: Quad<f32>) -> f32
    ensures { result ≡ mean_of p.p00 p.p10 p.p01 p.p11 }
{
    (((p.p00 + p.p10) + p.p01) + p.p11) / 4.0
}

// One rule for all four channels. Compiled into its callers: a call for each texel would be felt.
#[inline(always)]
#[tactic(auto, unfolding(rules::specs::Reducing::each_of))]
pub fn each<F: Fn(Quad<u8>) -> u8>(byte: F, q: Quad<u32>) -> u32
    requires { F.IsAlwaysCallable byte }
    ensures { (rule : _) → Follows (F.post byte) rule → result ≡ each_of rule q.p00 q.p10 q.p01 q.p11 }
{
    rgba(
        byte(q.map(red)),
        byte(q.map(green)),
        byte(q.map(blue)),
        byte(q.map(alpha)),
    )
}
