// Texels that were made, held against those that stand in their place.
ghost use Rattle.std.specs.Prelude.{◌≡◌, length, get_or};
ghost use Rattle.reduce.specs.Right.{FirstWrong};

// The first of c that is not the made one.
pub fn alike(made: &[u32], c: &[u32]) -> Option<usize>
    requires { length made.now ≡ length c.now }
    ensures { FirstWrong 0 c.now (length c.now) (λ k. get_or made.now k 0) result }
{
    made.iter().zip(c).position(|(made, texel)| made != texel)
}
