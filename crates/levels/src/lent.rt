// A picture's chain that is lent, and the packing mode that it is made by.
ghost use Rattle.std.specs.Prelude.{◌≡◌, ◌≤◌, length, IfOk};
ghost use Rattle.rules.specs.Packing.{packing_of};
ghost use Rattle.rules.specs.Sizes.{count};
ghost use Rattle.rules.specs.Refusals.{◌or_else◌, buffer_refusal, mode_refusal};
ghost use Rattle.rules.specs.Kinds.{faces_of, code_of};
ghost use Rattle.rules.specs.Answers.{done, told};

use crate::layout::Layout;
use crate::picture::Picture;
use rules::{Packing, Refusal};

// The texels have room for the whole chain, and perhaps for more.
#[derive(Clone, Copy)]
pub struct Chain<'a> {
    pub picture: Picture,
    pub texels: &'a [u32],
    pub ghost room: { count (faces_of (code_of picture.kind)) picture.width picture.height ≤ length texels.now },
}

#[derive(Clone, Copy)]
pub struct Lent<'a> {
    pub chain: Chain<'a>,
    pub packing: Packing,
}

// 3, 15: the chain within the texels, then the mode.
#[tactic(auto, using(rules::proofs::Answering::answer_or, rules::proofs::Answering::answer_as))]
pub fn lent_chain<'a>(picture: Picture, mode: u32, texels: &'a [u32]) -> Result<Lent<'a>, Refusal>
    ensures told { done result ≡ told (buffer_refusal (count (faces_of (code_of picture.kind)) picture.width picture.height) (length texels.now) or_else mode_refusal mode) }
    ensures is { IfOk result (λ l. (l.chain.picture ≡ picture) × (l.packing ≡ packing_of mode) × (l.chain.texels.now ≡ texels.now)) }
{
    Layout::new(picture, texels.len())?;
    let packing = Packing::try_from(mode)?;
    Ok(Lent {
        chain: Chain { picture, texels },
        packing,
    })
}
