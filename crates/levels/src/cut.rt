// The aligned cut of a picture that is no cubemap: a part of its level 0, as level 0 of a picture of its own.
ghost use Rattle.std.specs.Prelude.{◌≡◌, ◌+◌, ◌*◌, ◌≤◌, length};
ghost use Rattle.rules.specs.Cuts.{aligned};
ghost use Rattle.rules.specs.Kinds.{faces_of, code_of};
ghost use Rattle.rules.specs.Refusals.{◌or_else◌, buffer_refusal, no_cubemap_refusal, cut_refusal};
ghost use Rattle.rules.specs.Answers.{told, cut_answer, cut_leaves};
ghost use Rattle.kinds.specs.Runs.{over};
ghost use Rattle.levels.specs.Cuts.{along, cut_cell};

use crate::picture::Picture;
use crate::refusals::check_room;
use rules::{Pair, Refusal};

// n is a multiple of 2^order.
#[tactic(auto, using(crate::proofs::Cuts::one_shl), unfolding(rules::specs::Cuts::aligned))]
fn multiple(order: u32, n: u32) -> bool
    requires { order ≤ 12 }
    ensures { result ≡ aligned order n }
{
    n % (1u32 << order) == 0
}

// Along one side of the picture: the cut's side is not 0, corner and side are multiples of 2^order, and it lies inside.
#[tactic(auto, unfolding(crate::specs::Cuts::along))]
fn along(order: u32, side: u32, corner: u32, part: u32) -> bool
    requires { order ≤ 12 }
    ensures { result ≡ along order side corner part }
{
    part != 0
        && (corner as usize) + (part as usize) <= (side as usize)
        && multiple(order, corner)
        && multiple(order, part)
}

// Order, corner and sides are three of the call's own arguments, taken as they come: a type of them would be made for this test alone.
// 11: cut order above 12, a side 0, corner or side not a multiple of 2^order, or not wholly inside.
fn check_place(order: u32, picture: Picture, corner: Pair, sides: Pair) -> Result<(), Refusal>
    ensures { result ≡ told (cut_refusal order picture.width picture.height corner sides) }
{
    if order <= 12
        && along(order, picture.width, corner.x, sides.x)
        && along(order, picture.height, corner.y, sides.y)
    {
        Ok(())
    } else {
        Err(Refusal::CutOutside)
    }
}

// 3 (source), 8, 11, 3 (target): level 0 of each.
#[tactic(auto, using(rules::proofs::Answering::answer_or))]
fn check_cut(
    picture: Picture,
    source: &[u32],
    order: u32,
    corner: Pair,
    sides: Pair,
    target: &[u32],
) -> Result<(), Refusal>
    ensures { result ≡ told (buffer_refusal (faces_of (code_of picture.kind) * picture.height * picture.width) (length source.now) or_else no_cubemap_refusal (code_of picture.kind) or_else cut_refusal order picture.width picture.height corner sides or_else buffer_refusal (sides.y * sides.x) (length target.now)) }
{
    check_room(picture.level0(), source.len())?;
    picture.check_no_cubemap()?;
    check_place(order, picture, corner, sides)?;
    check_room((sides.y as usize) * (sides.x as usize), target.len())
}

// Puts a row's texels in place of as many. Texel by texel: to copy them by the library would need `memmove` of what links the unit.
fn put_row(row: &[u32], texels: &mut [u32])
    requires { length texels.old ≡ length row.now }
    ensures { texels.new ≡ row.now }
{
    for (x, texel) in texels.iter_mut().enumerate() {
        *texel = row[x];
    }
}

// Writes the cut's rows one after the other. The source's level 0 is w wide. By place: of `chunks_exact_mut` the library tells the length
// alone.
#[tactic(auto, using(crate::proofs::Cuts::cut_reads))]
fn write_cut(w: usize, corner: Pair, sides: Pair, source: &[u32], target: &mut [u32])
    requires across { corner.x + sides.x ≤ w }
    requires source_room { (corner.y + sides.y) * w ≤ length source.now }
    requires target_room { sides.y * sides.x ≤ length target.old }
    ensures { target.new ≡ over 0 target.old (sides.y * sides.x) (cut_cell w corner.x corner.y sides.x source.now) }
{
    let x = corner.x as usize;
    let top = corner.y as usize;
    let across = sides.x as usize;
    let rows = sides.y as usize;
    for y in 0..rows {
        let from = (top + y) * w + x;
        let to = y * across;
        put_row(&source[from..from + across], &mut target[to..to + across]);
    }
}

// Cuts a part out of a picture's level 0, to stand as level 0 in the target, and answers the texels written.
#[tactic(auto, using(rules::proofs::Answering::answer_then, rules::proofs::Answering::leaves_then), unfolding(rules::specs::Refusals::cut_call_refusal, rules::specs::Answers::cut_answer, rules::specs::Answers::cut_leaves))]
pub fn cut(
    kind: u32,
    width: u32,
    height: u32,
    source: &[u32],
    order: u32,
    corner: Pair,
    sides: Pair,
    target: &mut [u32],
) -> Result<usize, Refusal>
    ensures answer { result ≡ cut_answer kind width height source.now order corner sides target.old }
    ensures leaves { target.new ≡ cut_leaves kind width height source.now order corner sides target.old }
{
    let picture = Picture::new(kind, width, height)?;
    check_cut(picture, source, order, corner, sides, target)?;
    write_cut(width as usize, corner, sides, source, target);
    Ok((sides.y as usize) * (sides.x as usize))
}
