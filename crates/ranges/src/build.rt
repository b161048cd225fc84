// Building the ranges: tile after tile, row by row.
ghost use Rattle.std.specs.Prelude.{◌≡◌, ◌++◌, ◌≤◌, length, drop};
ghost use Rattle.rules.specs.Ranges.{ranges_of, ranges_size};
ghost use Rattle.rules.specs.Answers.{ranges_answer, ranges_leaves};

use crate::level0::Level0;
use crate::tile::{ranges_size, tiles};
use rules::Refusal;

// Writes the range of every tile. One number, taken apart: two loops, one in the other, would need an invariant each for the one here.
fn write_tiles(level: Level0<'_>, ranges: &mut [u8])
    requires { ranges_size level.width level.height ≤ length ranges.old }
    ensures { ranges.new ≡ ranges_of level.entry.width level.entry.height level.entry.texels.now ++ drop (ranges_size level.entry.width level.entry.height) ranges.old }
{
    let across = tiles(level.width);
    for n in 0..tiles(level.height) * across {
        level.write_tile(n % across, n / across, ranges);
    }
}

// Fills the front of `ranges` with those of the picture's level 0 and answers the bytes written.
#[tactic(auto, using(rules::proofs::Answering::answer_as, rules::proofs::Answering::leaves_as), unfolding(rules::specs::Answers::ranges_answer, rules::specs::Answers::ranges_leaves))]
pub fn build_ranges(
    kind: u32,
    width: u32,
    height: u32,
    texels: &[u32],
    ranges: &mut [u8],
) -> Result<usize, Refusal>
    ensures answer { result ≡ ranges_answer kind width height texels.now ranges.old }
    ensures leaves { ranges.new ≡ ranges_leaves kind width height texels.now ranges.old }
{
    let level = Level0::new(kind, width, height, texels, ranges)?;
    write_tiles(level, ranges);
    Ok(ranges_size(width, height))
}
