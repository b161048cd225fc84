// MetallicRoughness: red and alpha of p00; green the square root, correctly rounded, of the mean of squares; blue the mean.
ghost use Rattle.std.specs.Prelude.{◌≡◌};
ghost use Rattle.rules.specs.Floats.{unpack_of, square_of};
ghost use Rattle.rules.specs.Reducing.{rough_byte, metallic_of};

use crate::channel::{Quad, mean};
use crate::linear;
use crate::rule::Reduce;
use rules::Packing;
use texel::bytes::{alpha, blue, green, red, rgba};
use texel::packing::{pack, unpack};
use texel::root::sqrt;

#[derive(Clone, Copy)]
pub struct MetallicRoughness {
    pub packing: Packing,
}

// p*p
fn square(byte: u8) -> f32
    ensures { result ≡ square_of (unpack_of byte) }
{
    let p = unpack(byte);
    p * p
}

// The green channel.
#[inline(always)]
fn byte(packing: Packing, p: Quad<u8>) -> u8
    ensures { result ≡ rough_byte packing p.p00 p.p10 p.p01 p.p11 }
{
    pack(packing, sqrt(mean(p.map(square))))
}

impl Reduce for MetallicRoughness {
    ghost rule = { λ it. metallic_of it.packing };

    #[inline(always)]
    #[tactic(auto, unfolding(rules::specs::Reducing::metallic_of))]
    fn reduced(&self, q: Quad<u32>) -> u32 {
        rgba(
            red(q.p00),
            byte(self.packing, q.map(green)),
            linear::byte(self.packing, q.map(blue)),
            alpha(q.p00),
        )
    }
}
