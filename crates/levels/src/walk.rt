// Where every level of a chain starts, in one walk over its levels.
ghost use Rattle.std.specs.Prelude.{◌≡◌, ◌+◌, ◌≤◌, length};
ghost use Rattle.rules.specs.Sizes.{top, start, count};
ghost use Rattle.kinds.specs.Runs.{over};
ghost use Rattle.reduce.specs.Levels.{Sides};

use crate::sizes::top_level;

// Writes the starts of the levels in their order, and answers the whole chain's texels. Up to the top level the larger side only halves:
// held to 1 as well, it made the walk take 143 instructions at 512 square in place of 125.
// An out parameter beside the answer: the starts are filled in place, in the frame of the one that keeps them.
pub fn starts_of(faces: u32, width: u32, height: u32, starts: &mut [u32]) -> u32
    requires { Sides faces width height × (13 ≤ length starts.old) }
    ensures total { result ≡ count faces width height }
    ensures leaves { starts.new ≡ over 0 starts.old (top width height + 1) (start faces width height) }
{
    let levels = top_level(width, height) as usize + 1;
    let mut larger = width.max(height);
    let mut smaller = width.min(height);
    let mut at = 0;
    for start in &mut starts[..levels] {
        *start = at;
        at += faces * larger * smaller;
        larger /= 2;
        smaller = (smaller / 2).max(1);
    }
    at
}
