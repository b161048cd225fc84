// A byte as an f32, and an f32 from 0 to 1 as a byte, by a packing mode.
ghost use Rattle.std.specs.Prelude.{◌≡◌};
ghost use Rattle.rules.specs.Floats.{Between, zero32, one32, unpack_of};
ghost use Rattle.rules.specs.Packing.{pack_of};
ghost use Rattle.texel.specs.Offsets.{offset_of};

use rules::Packing;

// Unpack: byte / 255.0.
pub fn unpack(byte: u8) -> f32
    ensures { result ≡ unpack_of byte }
{
    (byte as f32) / 255.0
}

// What is added to a product: 2^20, and to the nearest 2^20 + 1/2.
fn offset(packing: Packing) -> f64
    ensures { result ≡ offset_of packing }
{
    match packing {
        Packing::Truncating => 1048576.0,
        Packing::Nearest => 1048576.5,
    }
}

// Pack: value * 255.0, truncated, or to the nearest with a half upward. The f64 sum of a product from 0 to 255 and the offset has the whole
// number in its bits 32 to 39.
pub fn pack(packing: Packing, value: f32) -> u8
    requires { Between zero32 value one32 }
    ensures { result ≡ pack_of packing value }
{
    let p = value * 255.0;
    let y = (p as f64) + offset(packing);
    ((f64::to_bits(y) / 4294967296) % 256) as u8
}
