// A way to make one texel of four, and a row of such texels from the two rows above.
ghost use Rattle.std.specs.Prelude.{◌≡◌, true, ℕ, ◌*◌, ◌<◌, ◌≤◌, length, get_or};
ghost use Rattle.rules.specs.declared.Packing.TheVariants.{Nearest};
ghost use Rattle.rules.specs.Levels.{tab};
ghost use Rattle.rules.specs.Reducing.{linear_of};
ghost use Rattle.kinds.specs.Runs.{pairs_of};

use crate::above::{Rows, Standing};
use crate::channel::Quad;

pub trait Reduce {
    // The texel that takes the place of p00, p10, p01, p11.
    ghost rule: { Self → ℕ → ℕ → ℕ → ℕ → ℕ };

    // Each is compiled into its callers: a call for each texel would be felt.
    fn reduced(&self, q: Quad<u32>) -> u32
        ensures { result ≡ rule self.now q.p00 q.p10 q.p01 q.p11 };

    // Whether `all_right` may answer `true`, by whole numbers or in a rule's own way. For crates with rules of their own: what is here asks
    // `by_wholes`.
    fn tells(&self) -> bool {
        self.by_wholes()
    }

    // Whether whole numbers tell a right texel. A flag beside an answer: it is asked before any texel is looked at, to size the blocks.
    fn by_wholes(&self) -> bool
        ensures { (result ≡ true) → rule self.now ≡ linear_of Nearest }
    {
        false
    }

    // Whether texels are told to be those made of the rows above without a row being made.
    fn all_right(&self, standing: Standing) -> bool
        requires few { length standing.texels.now < 4294967296 }
        ensures { (result ≡ true) → (k : ℕ) → k < length standing.entry.texels.now → get_or standing.entry.texels.now k 0 ≡ pairs_of (rule self.now) standing.entry.above k }
    {
        false
    }
}

// A row, each texel made of its pairs of the two rows above. Compiled into its callers, where the array that it fills is seen to overlap
// nothing. The pairs go by their place: of `iter_mut` zipped with chunks of the rows a proof knows how long o is and no texel of it.
#[inline(always)]
pub fn row<R: Reduce>(rule: &R, rows: Rows, o: &mut [u32])
    requires { 2 * length o.old ≤ length rows.first.now }
    ensures { o.new ≡ tab (length o.old) (pairs_of (R.rule rule.now) rows.entry) }
{
    for (x, texel) in o.iter_mut().enumerate() {
        *texel = rule.reduced(rows.pair(x));
    }
}

#[cfg(test)]
mod tests;
