// A choice that compiles to no branch, and what is done in each of four lanes.
#![tactic(auto)]

ghost use Rattle.std.specs.Prelude.{◌≡◌, cond};

pub mod lanes;

// The first of two values where the test holds, else the second: both are worked out already.
pub fn pick<T: Copy>(test: bool, a: T, b: T) -> T
    ensures { result ≡ cond test a b }
{
    if test { a } else { b }
}
