// T at every byte, asked of the unit once, and a texel's colours by it.
ghost use Rattle.std.specs.Prelude.{◌≡◌};
ghost use Rattle.rules.specs.Curve.{curve};
ghost use Rattle.rules.specs.Irradiance.{decoded_of};
ghost use Rattle.irradiance.specs.Holding.{Holds};

use rules::Rgb;
use std::array;
use texture::srgb_to_linear;

// T at every byte.
#[derive(Drop)]
pub struct Tones {
    values: [f32; 256],
    ghost held: { Holds curve values },
}

impl Tones {
    pub fn new() -> Self {
        Tones {
            values: array::from_fn(|byte| srgb_to_linear(byte as u8)),
        }
    }

    // T at one byte.
    fn tone(&self, byte: u8) -> f32
        ensures { result ≡ curve byte }
    {
        self.values[byte as usize]
    }

    // A texel's red, green and blue, each decoded through T.
    #[tactic(auto, unfolding(rules::specs::Irradiance::decoded_of))]
    pub fn decoded(&self, texel: u32) -> Rgb
        ensures { result ≡ decoded_of texel }
    {
        Rgb {
            r: self.tone(texel::bytes::red(texel)),
            g: self.tone(texel::bytes::green(texel)),
            b: self.tone(texel::bytes::blue(texel)),
        }
    }
}
