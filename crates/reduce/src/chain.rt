// The levels of a picture, each made from the one before, the number of levels left falling by one.
ghost use Rattle.std.specs.Prelude.{◌≡◌, ◌≤◌, length};
ghost use Rattle.rules.specs.Sizes.{start};
ghost use Rattle.rules.specs.Levels.{filled};

use crate::level::write_next;
use crate::shape::Shape;
use kinds::rule::Reduce;

// Makes `left` levels, of which the first is in s already: writes the next behind it, and goes on with the part that starts there, with the
// next level's shape and one level fewer. Entries past them stay as found.
// `room` is of a `&mut` slice that is handed on: a value that held it would have to be taken apart at each step.
pub fn fill<R: Reduce>(rule: &R, shape: Shape, left: usize, s: &mut [u32])
    requires room { (1 ≤ left) × (start shape.faces shape.width shape.height left ≤ length s.old) }
    ensures { s.new ≡ filled (R.rule rule.now) shape.faces left shape.width shape.height s.old }
{
    if left < 2 {
        return;
    }
    write_next(rule, shape, s);
    let n = shape.size();
    fill(rule, shape.next(), left - 1, &mut s[n..]);
}
