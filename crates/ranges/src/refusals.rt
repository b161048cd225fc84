// What both calls refuse: each refusal is given exactly when its test fails.
ghost use Rattle.std.specs.Prelude.{◌≡◌};
ghost use Rattle.rules.specs.Kinds.{faces_of};
ghost use Rattle.rules.specs.Ranges.{ranges_size};
ghost use Rattle.rules.specs.Refusals.{buffer_refusal, no_cubemap_refusal, ranges_refusal, outside_refusal, replace_refusal};
ghost use Rattle.rules.specs.Answers.{told};

use crate::tile::ranges_size;
use rules::Refusal;
use texture::level_sizes;

// Six faces for a cubemap, one for every other kind.
#[tactic(auto, unfolding(rules::specs::Kinds::faces_of))]
fn faces_of(kind: u32) -> usize
    ensures { result ≡ faces_of kind }
{
    match kind {
        3 => 6,
        _ => 1,
    }
}

// 3: a lent buffer of n entries is shorter than what is read or filled there.
#[tactic(auto, unfolding(rules::specs::Refusals::buffer_refusal, rules::specs::Refusals::refusal_of, rules::specs::Answers::answer))]
fn check_room(needed: usize, n: usize) -> Result<(), Refusal>
    ensures { result ≡ told (buffer_refusal needed n) }
{
    if needed <= n {
        Ok(())
    } else {
        Err(Refusal::ShortBuffer)
    }
}

// 8: a cubemap.
#[tactic(auto, unfolding(rules::specs::Refusals::no_cubemap_refusal, rules::specs::Refusals::refusal_of, rules::specs::Answers::answer))]
fn check_no_cubemap(kind: u32) -> Result<(), Refusal>
    ensures { result ≡ told (no_cubemap_refusal kind) }
{
    match kind {
        3 => Err(Refusal::KindNotTaken),
        _ => Ok(()),
    }
}

// 1, 2, 3 (level 0), 3 (the ranges), 8: every picture that is taken has a level 0.
#[tactic(auto, using(rules::proofs::RefusingRanges::level0_told, rules::proofs::Answering::answer_or), unfolding(rules::specs::Refusals::ranges_refusal))]
pub fn check_ranges(
    kind: u32,
    width: u32,
    height: u32,
    texels: usize,
    ranges: usize,
) -> Result<(), Refusal>
    ensures { result ≡ told (ranges_refusal kind width height texels ranges) }
{
    level_sizes(kind, width, height, 0)?;
    let level0 = faces_of(kind) * (height as usize) * (width as usize);
    check_room(level0, texels)?;
    check_room(ranges_size(width, height), ranges)?;
    check_no_cubemap(kind)
}

// 14: a place outside the picture.
#[tactic(auto, unfolding(rules::specs::Refusals::outside_refusal, rules::specs::Refusals::refusal_of, rules::specs::Answers::answer))]
fn check_inside(width: u32, height: u32, x: u32, y: u32) -> Result<(), Refusal>
    ensures { result ≡ told (outside_refusal width height x y) }
{
    if x < width && y < height {
        Ok(())
    } else {
        Err(Refusal::PlaceOutside)
    }
}

// The tests for ranges, then 14.
#[tactic(auto, using(rules::proofs::Answering::answer_or), unfolding(rules::specs::Refusals::replace_refusal))]
pub fn check_replace(
    kind: u32,
    width: u32,
    height: u32,
    texels: usize,
    ranges: usize,
    x: u32,
    y: u32,
) -> Result<(), Refusal>
    ensures { result ≡ told (replace_refusal kind width height texels ranges x y) }
{
    check_ranges(kind, width, height, texels, ranges)?;
    check_inside(width, height, x, y)
}
