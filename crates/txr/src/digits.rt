// Numbers as text, in ASCII.
// By hand: `list` promises its text always and cannot fail; a `write!` promises it only where it answers Ok, and no writer promises that.
ghost use Rattle.std.specs.Prelude.{◌≡◌, ◌+◌, ◌<◌, ◌≤◌, ◌++◌, length};
ghost use Rattle.txr.specs.Digits.{digit_of, digits_of, places_of, decimal_of, hex_of};

use crate::page::Page;

// A digit: 0 to 9, then capital A to F.
#[tactic(auto, unfolding(crate::specs::Digits::digit_of))]
fn digit(d: u32) -> u8
    requires { d < 16 }
    ensures { result ≡ digit_of d }
{
    if d < 10 { 48 + d as u8 } else { 55 + d as u8 }
}

// How many decimal digits n has.
#[tactic(auto, using(crate::proofs::Spelling::places_one, crate::proofs::Spelling::places_more))]
fn places(n: u32) -> usize
    ensures { result ≡ places_of n }
{
    // A while: what is left is divided by ten until it is a digit.
    let mut rest = n;
    let mut k = 1;
    while 10 <= rest {
        rest /= 10;
        k += 1;
    }
    k
}

impl Page {
    // The last k digits of n in a base: those of the quotient, and then that of the remainder.
    fn digits(&mut self, base: u32, k: usize, n: u32)
        requires { (0 < base) × (base ≤ 16) × (length self.old + k ≤ 512) }
        ensures { self.new ≡ self.old ++ digits_of base k n }
    {
        if k != 0 {
            self.digits(base, k - 1, n / base);
            self.text(&[digit(n % base)]);
        }
    }

    // A number in decimal.
    #[tactic(auto, using(crate::proofs::Spelling::length_digits), unfolding(crate::specs::Digits::decimal_of))]
    pub fn decimal(&mut self, n: u32)
        requires { length self.old + length (decimal_of n) ≤ 512 }
        ensures { self.new ≡ self.old ++ decimal_of n }
    {
        self.digits(10, places(n), n);
    }

    // A texel as eight hex digits.
    #[tactic(auto, unfolding(crate::specs::Digits::hex_of))]
    pub fn hex(&mut self, texel: u32)
        requires { length self.old + 8 ≤ 512 }
        ensures { self.new ≡ self.old ++ hex_of texel }
    {
        self.digits(16, 8, texel);
    }
}
