// Rows of a level as they stand, several at once where they are narrow: their sources lie one behind the other and are a level of their
// own, and the level after it is those rows.
ghost use Rattle.std.specs.Prelude.{◌≡◌, true, false, ◌+◌, ◌*◌, ◌<◌, ◌≤◌, length};
ghost use Rattle.rules.specs.Sizes.{half};
ghost use Rattle.reduce.specs.Rows.{rows_of};
ghost use Rattle.reduce.specs.Levels.{Run};
ghost use Rattle.reduce.specs.Right.{FirstWrong};

use crate::alike::alike;
use crate::check_row::check_row;
use crate::level::make_next;
use crate::shape::{Above, Shape, halved};
use kinds::rule::Reduce;

// Narrower rows are looked at in blocks. Where whole numbers tell right rows, only the narrowest.
fn narrow_below<R: Reduce>(rule: &R) -> usize
    ensures { result ≤ 78 }
{
    if rule.by_wholes() { 8 } else { 78 }
}

// Whether a level's rows are looked at in blocks: they are narrow, and each has two rows that it is made from.
pub fn in_blocks<R: Reduce>(rule: &R, w: usize, h: usize) -> bool
    ensures { (result ≡ true) → (w < 78) × (2 ≤ h) }
{
    h > 1 && w < narrow_below(rule)
}

// How many rows from row y on lie in a run: those of its face, or where no face has a row left over, all that follow.
fn in_a_run(shape: Shape, y: usize) -> usize
    requires { y < shape.faces * half shape.height }
    ensures run { Run shape.width shape.height (half shape.height) (shape.faces * half shape.height) y result }
    ensures tall { 2 ≤ result → 2 ≤ shape.height }
{
    let h = shape.height;
    let h2 = halved(h);
    if h % 2 == 0 {
        shape.faces * h2 - y
    } else {
        h2 - y % h2
    }
}

// How many rows from row y on are looked at together: one, or in blocks as many of a run as 384 texels hold with their sources.
// `blocks` stands beside the shape: it is asked once a level, and this of every row.
pub fn together(blocks: bool, shape: Shape, y: usize) -> usize
    requires { (y < shape.faces * half shape.height) × ((blocks ≡ true) → (shape.width < 78)) }
    ensures run { Run shape.width shape.height (half shape.height) (shape.faces * half shape.height) y result }
    ensures one { (blocks ≡ false) → (result ≡ 1) }
    ensures room { (blocks ≡ true) → (2 * result * shape.width + result * half shape.width ≤ 384) }
    ensures block { 2 ≤ result → (2 ≤ shape.height) × (result * half shape.width ≤ 128) }
{
    if blocks {
        in_a_run(shape, y).min(384 / (2 * shape.width + halved(shape.width)))
    } else {
        1
    }
}

// The m rows c, against the 2m rows w wide that are all of `above`.
fn check_block<R: Reduce>(rule: &R, w: usize, m: usize, above: &[u32], c: &[u32]) -> Option<usize>
    requires block { (1 ≤ w) × (1 ≤ m) × (m * half w ≤ 128) }
    requires rows { (length above.now ≡ 2 * m * w) × (length c.now ≡ m * half w) }
    ensures { FirstWrong 0 c.now (length c.now) (rows_of (R.rule rule.now) w 0 w above.now) result }
{
    let n = c.len();
    let mut made = [0u32; 128];
    make_next(rule, Shape::new(1, w, 2 * m), above, &mut made[..n]);
    alike(&made[..n], c)
}

// The m rows c, the first of them against the rows w wide at `above`. m stands beside them: it is what tells a block from one row.
pub fn check_rows<R: Reduce>(
    rule: &R,
    w: usize,
    m: usize,
    above: Above,
    level: &[u32],
    c: &[u32],
) -> Option<usize>
    requires room { (1 ≤ w) × (1 ≤ m) × (above.first + w ≤ length level.now) × (above.second + w ≤ length level.now) × (length c.now ≡ m * half w) }
    requires block { 2 ≤ m → (above.second ≡ above.first + w) × (above.first + 2 * m * w ≤ length level.now) × (m * half w ≤ 128) }
    ensures { FirstWrong 0 c.now (length c.now) (rows_of (R.rule rule.now) w above.first above.second level.now) result }
{
    let first = above.first;
    if 1 < m {
        return check_block(rule, w, m, &level[first..first + 2 * m * w], c);
    }
    check_row(rule, above.rows(w, level), c)
}
