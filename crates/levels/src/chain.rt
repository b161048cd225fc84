// The chain call: level 0 stands in the lent buffer already, and the rest of the chain is filled behind it.
ghost use Rattle.std.specs.Prelude.{◌≡◌};
ghost use Rattle.rules.specs.Answers.{chain_answer, chain_leaves};

use crate::lent::lent_chain;
use crate::picture::Picture;
use reduce::by_kind::fill;
use rules::Refusal;

// Fills the levels after level 0, each made from the one before by the packing mode, and answers how many texels the chain has.
#[tactic(auto, using(rules::proofs::Answering::answer_then, rules::proofs::Answering::leaves_then, rules::proofs::Answering::or_else_assoc), unfolding(rules::specs::Refusals::chain_refusal, rules::specs::Refusals::mipmaps_refusal, rules::specs::Answers::chain_answer, rules::specs::Answers::chain_leaves))]
pub fn generate_mipmaps(
    kind: u32,
    width: u32,
    height: u32,
    mode: u32,
    texels: &mut [u32],
) -> Result<usize, Refusal>
    ensures answer { result ≡ chain_answer kind width height mode texels.old }
    ensures leaves { texels.new ≡ chain_leaves kind width height mode texels.old }
{
    let picture = Picture::new(kind, width, height)?;
    let packing = lent_chain(picture, mode, texels)?.packing;
    let levels = (picture.top_level() as usize) + 1;
    fill(picture.kind, packing, picture.shape(), levels, texels);
    Ok(picture.count())
}
