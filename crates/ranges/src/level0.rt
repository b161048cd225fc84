// A picture that is no cubemap, and its level 0, of which the calls on ranges refuse nothing.
ghost use Rattle.std.specs.Prelude.{length};
ghost use Rattle.rules.proofs.Building.{Flat};

use crate::refusals::check_ranges;
use rules::Refusal;

#[derive(Clone, Copy)]
pub struct Level0<'a> {
    // A code, as `cut` takes it.
    pub kind: u32,
    pub width: u32,
    pub height: u32,
    pub texels: &'a [u32],
    pub ghost flat: { Flat kind width height (length texels.now) },
}

impl<'a> Level0<'a> {
    ghost use Rattle.std.specs.Prelude.{◌≡◌, ◌≤◌, IfOk};
    ghost use Rattle.rules.specs.Ranges.{ranges_size};
    ghost use Rattle.rules.specs.Refusals.{ranges_refusal};
    ghost use Rattle.rules.specs.Answers.{done, told};

    // The tests for ranges.
    #[tactic(auto, using(rules::proofs::Answering::answer_as))]
    pub fn new(
        kind: u32,
        width: u32,
        height: u32,
        texels: &'a [u32],
        ranges: &[u8],
    ) -> Result<Level0<'a>, Refusal>
        ensures told { done result ≡ told (ranges_refusal kind width height (length texels.now) (length ranges.now)) }
        ensures picture { IfOk result (λ l. (l.kind ≡ kind) × (l.width ≡ width) × (l.height ≡ height)) }
        ensures texels { IfOk result (λ l. l.texels.now ≡ texels.now) }
        ensures room { IfOk result (λ l. ranges_size l.width l.height ≤ length ranges.now) }
    {
        check_ranges(kind, width, height, texels.len(), ranges.len())?;
        Ok(Level0 {
            kind,
            width,
            height,
            texels,
        })
    }
}
