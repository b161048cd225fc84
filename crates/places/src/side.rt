// A side that a level may have.
ghost use Rattle.std.specs.Prelude.{◌≤◌};

#[derive(Clone, Copy)]
pub struct Side {
    pub texels: u32,
    pub ghost is: { (1 ≤ texels) × (texels ≤ 4096) },
}
