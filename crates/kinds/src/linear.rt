// Linear and Cubemap: the mean of each channel.
ghost use Rattle.std.specs.Prelude.{◌≡◌};
ghost use Rattle.rules.specs.Reducing.{mean_byte, linear_of};

use crate::channel::{Quad, each, mean};
use crate::rule::Reduce;
use rules::Packing;
use texel::packing::{pack, unpack};

#[derive(Clone, Copy)]
pub struct Linear {
    pub packing: Packing,
}

// One channel.
pub fn byte(packing: Packing, p: Quad<u8>) -> u8
    ensures { result ≡ mean_byte packing p.p00 p.p10 p.p01 p.p11 }
{
    pack(packing, mean(p.map(unpack)))
}

// Normal's has this text too, but for its rule and `byte`: a trait that named the byte's rule would be longer than the two.
impl Reduce for Linear {
    ghost rule = { λ it. linear_of it.packing };

    #[inline(always)]
    #[tactic(auto, unfolding(rules::specs::Reducing::linear_of))]
    fn reduced(&self, q: Quad<u32>) -> u32 {
        each(|p| byte(self.packing, p), q)
    }
}
