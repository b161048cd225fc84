// One row of a level as it stands, held against what is made of two rows of the level before: the number of the first of its texels that
// is not right.
ghost use Rattle.std.specs.Prelude.{◌≡◌, ◌*◌, ◌≤◌, length};
ghost use Rattle.rules.specs.Sizes.{half};
ghost use Rattle.kinds.specs.Runs.{pairs_of};
ghost use Rattle.reduce.specs.Rows.{row_of};
ghost use Rattle.reduce.specs.Right.{FirstWrong};

use crate::alike::alike;
use crate::row::narrow;
use kinds::above::{Rows, Standing};
use kinds::rule::{Reduce, row};

// A part of it, 64 texels at most: told by the rule, or made and compared.
fn check_part<R: Reduce>(rule: &R, standing: Standing) -> Option<usize>
    requires { length standing.texels.now ≤ 64 }
    ensures { FirstWrong 0 standing.entry.texels.now (length standing.entry.texels.now) (pairs_of (R.rule rule.now) standing.entry.above) result }
{
    let n = standing.texels.len();
    if rule.all_right(standing) {
        return None;
    }
    let mut made = [0u32; 64];
    row(rule, standing.above, &mut made[..n]);
    alike(&made[..n], standing.texels)
}

// A row each of whose texels has its pair of each row, part after part.
fn check_pairs<R: Reduce>(rule: &R, standing: Standing) -> Option<usize>
    ensures { FirstWrong 0 standing.entry.texels.now (length standing.entry.texels.now) (pairs_of (R.rule rule.now) standing.entry.above) result }
{
    for (i, texels) in standing.texels.chunks(64).enumerate() {
        let x = 64 * i;
        let above = standing.above.from_pair(x);
        if let Some(wrong) = check_part(rule, Standing { above, texels }) {
            return Some(x + wrong);
        }
    }
    None
}

// The row c, against the two above.
pub fn check_row<R: Reduce>(rule: &R, rows: Rows, c: &[u32]) -> Option<usize>
    requires { (1 ≤ length rows.first.now) × (length c.now ≡ half (length rows.first.now)) }
    ensures { FirstWrong 0 c.now (length c.now) (row_of (R.rule rule.now) rows.entry) result }
{
    if rows.first.len() < 2 {
        return alike(&[narrow(rule, rows.first[0], rows.second[0])], c);
    }
    check_pairs(
        rule,
        Standing {
            above: rows,
            texels: c,
        },
    )
}
