// The smallest and the largest value of each channel, of texels that stand in a part of their own.
ghost use Rattle.std.specs.Prelude.{◌≡◌};
ghost use Rattle.ranges.specs.Scans.{Widened, WithTexel, RangeIs, bytes_of};

// The smallest and the largest of some bytes.
#[derive(Clone, Copy)]
pub struct Ends {
    pub low: u8,
    pub high: u8,
}

impl Ends {
    // Of no bytes.
    const NONE: Ends = Ends { low: 255, high: 0 };

    // The ends with one byte more.
    fn widened(self, byte: u8) -> Ends
        ensures { Widened self byte result }
    {
        Ends {
            low: self.low.min(byte),
            high: self.high.max(byte),
        }
    }
}

// Of each channel.
#[derive(Clone, Copy)]
pub struct Range {
    pub red: Ends,
    pub green: Ends,
    pub blue: Ends,
    pub alpha: Ends,
}

impl Range {
    // Of no texels.
    const NONE: Range = Range {
        red: Ends::NONE,
        green: Ends::NONE,
        blue: Ends::NONE,
        alpha: Ends::NONE,
    };

    // The range with one texel more.
    fn with_texel(self, texel: u32) -> Range
        ensures { WithTexel self texel result }
    {
        let [red, green, blue, alpha] = texel.to_be_bytes();
        Range {
            red: self.red.widened(red),
            green: self.green.widened(green),
            blue: self.blue.widened(blue),
            alpha: self.alpha.widened(alpha),
        }
    }

    // Eight bytes: red's smallest, red's largest, green's smallest, and so on to alpha's largest.
    pub fn bytes(self) -> [u8; 8]
        ensures { result ≡ bytes_of self }
    {
        [
            self.red.low,
            self.red.high,
            self.green.low,
            self.green.high,
            self.blue.low,
            self.blue.high,
            self.alpha.low,
            self.alpha.high,
        ]
    }
}

// The range of some texels.
#[tactic(auto, using(crate::proofs::Scanning::range_none))]
pub fn scan(texels: &[u32]) -> Range
    ensures { RangeIs texels.now result }
{
    let mut found = Range::NONE;
    for texel in texels {
        found = found.with_texel(*texel);
    }
    found
}
