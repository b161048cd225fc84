// Texels that lie as RGBA bytes: a cube cross, level 0 of a file.
ghost use Rattle.std.specs.Prelude.{◌≡◌, ◌+◌, ◌*◌, ◌≤◌, length};
ghost use Rattle.rules.specs.Levels.{tab};
ghost use Rattle.levels.specs.Crosses.{bytes_at};

use texel::bytes::rgba;

// Texel i of a picture of bytes.
#[tactic(auto, unfolding(crate::specs::Crosses::bytes_at))]
fn bytes_at(i: usize, bytes: &[u8]) -> u32
    requires { i * 4 + 4 ≤ length bytes.now }
    ensures { result ≡ bytes_at bytes.now i }
{
    let at = i * 4;
    rgba(bytes[at], bytes[at + 1], bytes[at + 2], bytes[at + 3])
}

// As many texels of the bytes as there is room for. By place: of a `zip` of `iter_mut` the library tells the length alone.
#[tactic(auto, unfolding(rules::specs::Levels::tab))]
pub fn put_bytes(bytes: &[u8], texels: &mut [u32])
    requires { 4 * length texels.old ≤ length bytes.now }
    ensures { texels.new ≡ tab (length texels.old) (bytes_at bytes.now) }
{
    for (i, texel) in texels.iter_mut().enumerate() {
        *texel = bytes_at(i, bytes);
    }
}
