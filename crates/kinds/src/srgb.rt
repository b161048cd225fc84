// SRGB: for the colour channels the mean of the T values, then the greatest k with T(k) at most the mean, whatever the packing;
// alpha as Linear.
ghost use Rattle.std.specs.Prelude.{◌≡◌};
ghost use Rattle.rules.specs.Reducing.{srgb_byte, srgb_of};
ghost use Rattle.texel.specs.Tables.{curve_table, Index};

use crate::channel::{Quad, mean};
use crate::linear;
use crate::rule::Reduce;
use rules::Packing;
use texel::bytes::{alpha, blue, green, red, rgba};
use texel::curve::{curve_table, decode, encode};
use texel::index::index_table;

// The two tables are held here, to be lent to every texel.
#[derive(Drop)]
pub struct Srgb {
    packing: Packing,
    curve: [f32; 256],
    index: [u8; 1506],
    ghost is_curve: { curve ≡ curve_table },
    ghost is_index: { Index index },
}

impl Srgb {
    pub fn new(packing: Packing) -> Srgb
        ensures { result.packing ≡ packing }
    {
        Srgb {
            packing,
            curve: curve_table(),
            index: index_table(),
        }
    }

    // One colour channel.
    fn byte(&self, p: Quad<u8>) -> u8
        ensures { result ≡ srgb_byte p.p00 p.p10 p.p01 p.p11 }
    {
        let m = mean(p.map(|k| decode(&self.curve, k)));
        encode(&self.curve, &self.index, m)
    }
}

impl Reduce for Srgb {
    ghost rule = { λ it. srgb_of it.packing };

    #[inline(always)]
    #[tactic(auto, unfolding(rules::specs::Reducing::srgb_of))]
    fn reduced(&self, q: Quad<u32>) -> u32 {
        rgba(
            self.byte(q.map(red)),
            self.byte(q.map(green)),
            self.byte(q.map(blue)),
            linear::byte(self.packing, q.map(alpha)),
        )
    }
}
