// A level as it stands, held against what is made of the level before, rows after rows through all its faces.
ghost use Rattle.std.specs.Prelude.{◌≡◌, ◌*◌, length, get_or};
ghost use Rattle.rules.specs.Sizes.{half};
ghost use Rattle.rules.specs.Levels.{next};
ghost use Rattle.reduce.specs.Right.{FirstWrong, NextFirstWrong};

use crate::check_block::{check_rows, in_blocks, together};
use crate::shape::{Followed, Shape};
use kinds::rule::Reduce;

// The first texel of c, the level after a level, that is not right.
fn check_level<R: Reduce>(rule: &R, shape: Shape, level: &[u32], c: &[u32]) -> Option<usize>
    requires level { length level.now ≡ shape.faces * shape.height * shape.width }
    requires after { length c.now ≡ shape.faces * half shape.height * half shape.width }
    ensures { FirstWrong 0 c.now (length c.now) (λ k. get_or (next (R.rule rule.now) shape.faces shape.width shape.height level.now) k 0) result }
{
    let below = shape.next();
    let w2 = below.width;
    let rows = below.faces * below.height;
    let blocks = in_blocks(rule, shape.width, shape.height);
    let mut y = 0;
    // A while: it goes on by the rows that are looked at together.
    while y < rows {
        let m = together(blocks, shape, y);
        let above = shape.rows_above(y);
        let at = y * w2;
        let part = &c[at..at + m * w2];
        if let Some(wrong) = check_rows(rule, shape.width, m, above, level, part) {
            return Some(at + wrong);
        }
        y += m;
    }
    None
}

// The first texel of the next level that is not right.
pub fn check_next<R: Reduce>(rule: &R, pair: Followed) -> Option<usize>
    ensures { NextFirstWrong (R.rule rule.now) pair.entry.shape pair.entry.texels.now result }
{
    let n = pair.shape.size();
    let m = pair.shape.next().size();
    check_level(rule, pair.shape, &pair.texels[..n], &pair.texels[n..n + m])
}
