// One row of the next level, from two rows of the level before.
ghost use Rattle.std.specs.Prelude.{◌≡◌, ◌*◌, ◌≤◌, length};
ghost use Rattle.rules.specs.Sizes.{half};
ghost use Rattle.rules.specs.Levels.{tab};
ghost use Rattle.kinds.specs.Runs.{pairs_of};
ghost use Rattle.reduce.specs.Rows.{row_of};

use kinds::above::Rows;
use kinds::channel::Quad;
use kinds::rule::{Reduce, row};

// The texel of two rows of one.
pub fn narrow<R: Reduce>(rule: &R, p: u32, q: u32) -> u32
    ensures { result ≡ R.rule rule.now p p q q }
{
    rule.reduced(Quad {
        p00: p,
        p10: p,
        p01: q,
        p11: q,
    })
}

// The row o, each texel from its pair of each row. Part after part in an array of its own, which overlaps no source, so that the
// compiler sees that several texels can be made at once. Not compiled into the loop over the rows, whose numbers would take its registers.
// `check_pairs` goes by parts too, but only looks, and stops: one loop for both would take closures that say both contracts again.
#[inline(never)]
fn write_pairs<R: Reduce>(rule: &R, rows: Rows, o: &mut [u32])
    requires { 2 * length o.old ≤ length rows.first.now }
    ensures { o.new ≡ tab (length o.old) (pairs_of (R.rule rule.now) rows.entry) }
{
    let mut part = [0u32; 64];
    let mut x = 0;
    // A while: `chunks_mut` was tried, and when what it lends is given back, a proof knows how long o is and no texel of it.
    while x < o.len() {
        let m = (o.len() - x).min(64);
        row(rule, rows.from_pair(x), &mut part[..m]);
        o[x..x + m].copy_from_slice(&part[..m]);
        x += m;
    }
}

// The row o, from the two above.
pub fn write_row<R: Reduce>(rule: &R, rows: Rows, o: &mut [u32])
    requires { (1 ≤ length rows.first.now) × (length o.old ≡ half (length rows.first.now)) }
    ensures { o.new ≡ tab (length o.old) (row_of (R.rule rule.now) rows.entry) }
{
    if rows.first.len() < 2 {
        o[0] = narrow(rule, rows.first[0], rows.second[0]);
        return;
    }
    write_pairs(rule, rows, o);
}
