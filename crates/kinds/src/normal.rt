// Normal: p*2 - 1, mean, (mean + 1) / 2, alpha included.
ghost use Rattle.std.specs.Prelude.{◌≡◌};
ghost use Rattle.rules.specs.Floats.{unpack_of};
ghost use Rattle.rules.specs.Reducing.{spread_of, normal_byte, normal_of};

use crate::channel::{Quad, each, mean};
use crate::rule::Reduce;
use rules::Packing;
use texel::packing::{pack, unpack};

#[derive(Clone, Copy)]
pub struct Normal {
    pub packing: Packing,
}

// p*2 - 1
fn spread(byte: u8) -> f32
    ensures { result ≡ spread_of (unpack_of byte) }
{
    unpack(byte) * 2.0 - 1.0
}

// One channel.
pub fn byte(packing: Packing, p: Quad<u8>) -> u8
    ensures { result ≡ normal_byte packing p.p00 p.p10 p.p01 p.p11 }
{
    pack(packing, (mean(p.map(spread)) + 1.0) / 2.0)
}

// Linear's has this text too, but for its rule and `byte`: a trait that named the byte's rule would be longer than the two.
impl Reduce for Normal {
    ghost rule = { λ it. normal_of it.packing };

    #[inline(always)]
    #[tactic(auto, unfolding(rules::specs::Reducing::normal_of))]
    fn reduced(&self, q: Quad<u32>) -> u32 {
        each(|p| byte(self.packing, p), q)
    }
}
