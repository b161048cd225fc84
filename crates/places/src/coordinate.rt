// The coordinates that a lookup takes.
ghost use Rattle.std.specs.Prelude.{◌≡◌};
ghost use Rattle.rules.specs.Refusals.{coordinate_taken};
ghost use Rattle.rules.proofs.RefusingLookups.{EachLane};

use rules::Lanes;

// The coordinates of four lanes along one side, each taken.
#[derive(Clone, Copy)]
pub struct Coordinates {
    pub lanes: Lanes,
    pub ghost taken: { EachLane coordinate_taken lanes },
}

// Whether a coordinate is finite and of a magnitude of 2,048 at most: a NaN fails both tests.
pub fn coordinate_taken(u: f32) -> bool
    ensures { result ≡ coordinate_taken u }
{
    (u >= -2048.0) & (u <= 2048.0)
}
