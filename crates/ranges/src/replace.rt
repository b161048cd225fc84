// Replacing one texel: its tile's range is worked out of the tile again, since the texel that left may have been an extreme.
ghost use Rattle.std.specs.Prelude.{◌≡◌, length};
ghost use Rattle.rules.specs.Refusals.{replace_refusal};
ghost use Rattle.rules.specs.Answers.{told, replace_leaves, replace_ranges_leaves};

use crate::level0::Level0;
use crate::refusals::check_replace;
use rules::Refusal;

// Puts a texel at (x, y) of level 0 and brings its tile's range up to date. The other levels are not made again.
// The level is put together here once more: the one that the tests look at is lent, and its texel changes.
#[tactic(auto, using(rules::proofs::Answering::leaves_as), unfolding(rules::specs::Answers::replace_leaves, rules::specs::Answers::replace_ranges_leaves))]
pub fn replace_texel(
    kind: u32,
    width: u32,
    height: u32,
    texels: &mut [u32],
    ranges: &mut [u8],
    x: u32,
    y: u32,
    texel: u32,
) -> Result<(), Refusal>
    ensures answer { result ≡ told (replace_refusal kind width height (length texels.old) (length ranges.old) x y) }
    ensures texels { texels.new ≡ replace_leaves kind width height texels.old ranges.old x y texel }
    ensures ranges { ranges.new ≡ replace_ranges_leaves kind width height texels.old ranges.old x y texel }
{
    check_replace(kind, width, height, texels.len(), ranges.len(), x, y)?;
    let at = (y as usize) * (width as usize) + (x as usize);
    texels[at] = texel;
    let level = Level0 {
        kind,
        width,
        height,
        texels,
    };
    level.write_tile(x / 16, y / 16, ranges);
    Ok(())
}
