// The level after a level, row by row through all its faces.
ghost use Rattle.std.specs.Prelude.{◌≡◌, ◌+◌, ◌*◌, ◌≤◌, length};
ghost use Rattle.rules.specs.Sizes.{half};
ghost use Rattle.rules.specs.Levels.{next};
ghost use Rattle.reduce.specs.Levels.{written};

use crate::row::write_row;
use crate::shape::Shape;
use kinds::rule::Reduce;

// Makes the level after a level in `after`.
// `check_level` goes over rows too, but only looks, and stops: one loop for both would take closures that say both contracts again.
pub fn make_next<R: Reduce>(rule: &R, shape: Shape, level: &[u32], after: &mut [u32])
    requires level { length level.now ≡ shape.faces * shape.height * shape.width }
    requires after { length after.old ≡ shape.faces * half shape.height * half shape.width }
    ensures { after.new ≡ next (R.rule rule.now) shape.faces shape.width shape.height level.now }
{
    let w = shape.width;
    let below = shape.next();
    let w2 = below.width;
    for y in 0..below.faces * below.height {
        let above = shape.rows_above(y);
        let at = y * w2;
        write_row(rule, above.rows(w, level), &mut after[at..at + w2]);
    }
}

// Writes the level after the level at the front of s behind it. Not compiled into `fill`, where its frame would stand on the stack
// once a level.
#[inline(never)]
pub fn write_next<R: Reduce>(rule: &R, shape: Shape, s: &mut [u32])
    requires room { shape.faces * shape.height * shape.width + shape.faces * half shape.height * half shape.width ≤ length s.old }
    ensures { s.new ≡ written (R.rule rule.now) shape.faces shape.width shape.height s.old }
{
    let n = shape.size();
    let m = shape.next().size();
    let (level, behind) = s.split_at_mut(n);
    make_next(rule, shape, level, &mut behind[..m]);
}
