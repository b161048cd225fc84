// The two rows that a row of the next level is made from, one as long as the other, and what stands under them.
ghost use Rattle.std.specs.Prelude.{◌≡◌, ◌+◌, ◌*◌, ◌≤◌, length, min, take, drop};
ghost use Rattle.kinds.specs.Quads.{Pairs};

use crate::channel::Quad;

#[derive(Clone, Copy)]
pub struct Rows<'a> {
    pub first: &'a [u32],
    pub second: &'a [u32],
    pub ghost alike: { length second.now ≡ length first.now },
}

// Texels that stand under two rows, each under its pair of both.
#[derive(Clone, Copy)]
pub struct Standing<'a> {
    pub above: Rows<'a>,
    pub texels: &'a [u32],
    pub ghost paired: { 2 * length texels.now ≤ length above.first.now },
}

impl<'a> Rows<'a> {
    // Two rows, as far as both go.
    pub fn new(first: &'a [u32], second: &'a [u32]) -> Rows<'a>
        ensures { let n = min (length first.now) (length second.now) in (result.first.now ≡ take n first.now) × (result.second.now ≡ take n second.now) }
    {
        let n = first.len().min(second.len());
        Rows {
            first: &first[..n],
            second: &second[..n],
        }
    }

    // The four texels of place x: a pair of each row.
    pub fn pair(self, x: usize) -> Quad<u32>
        requires { 2 * x + 2 ≤ length self.first.now }
        ensures { Pairs self.entry.first.now self.entry.second.now x result }
    {
        let x0 = 2 * x;
        Quad {
            p00: self.first[x0],
            p10: self.first[x0 + 1],
            p01: self.second[x0],
            p11: self.second[x0 + 1],
        }
    }

    // The rows from their pair x on.
    pub fn from_pair(self, x: usize) -> Rows<'a>
        requires { 2 * x ≤ length self.first.now }
        ensures { (result.first.now ≡ drop (2 * x) self.entry.first.now) × (result.second.now ≡ drop (2 * x) self.entry.second.now) }
    {
        Rows {
            first: &self.first[2 * x..],
            second: &self.second[2 * x..],
        }
    }
}
