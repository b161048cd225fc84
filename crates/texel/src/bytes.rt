// A texel's four bytes: red in the top byte, then green, blue, alpha. Four functions and no place in an array: each is handed on as the
// channel that it is. By the library's `to_be_bytes` a texel of a truncating chain takes 2 to 3 % more instructions, and 2 wide 4 % more than
// as ported.
ghost use Rattle.std.specs.Prelude.{◌≡◌};
ghost use Rattle.rules.specs.Kinds.{red_of, green_of, blue_of, alpha_of, rgba};

// The red byte.
pub fn red(texel: u32) -> u8
    ensures { result ≡ red_of texel }
{
    (texel / 16777216) as u8
}

// The green byte.
pub fn green(texel: u32) -> u8
    ensures { result ≡ green_of texel }
{
    (texel / 65536 % 256) as u8
}

// The blue byte.
pub fn blue(texel: u32) -> u8
    ensures { result ≡ blue_of texel }
{
    (texel / 256 % 256) as u8
}

// The alpha byte.
pub fn alpha(texel: u32) -> u8
    ensures { result ≡ alpha_of texel }
{
    (texel % 256) as u8
}

// The texel of four bytes.
#[tactic(auto, unfolding(rules::specs::Kinds::rgba))]
pub fn rgba(r: u8, g: u8, b: u8, a: u8) -> u32
    ensures { result ≡ rgba r g b a }
{
    (r as u32) * 16777216 + (g as u32) * 65536 + (b as u32) * 256 + (a as u32)
}
