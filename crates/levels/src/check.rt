// Another tool's chain, judged: each level given the level before it, as they stand in the lent buffer. A verdict is the first wrong
// texel's place, and none where all follow.
ghost use Rattle.std.specs.Prelude.{◌≡◌, ◌≤◌};
ghost use Rattle.rules.specs.Kinds.{code_of};
ghost use Rattle.rules.specs.Sizes.{top};
ghost use Rattle.rules.specs.Checks.{level_verdict_of, chain_verdict_of};
ghost use Rattle.rules.specs.Answers.{check_chain_answer, check_level_answer};

use crate::lent::{Chain, Lent, lent_chain};
use crate::level::PictureLevel;
use crate::picture::Picture;
use reduce::by_kind::check_next;
use reduce::shape::Followed;
use rules::{Packing, Refusal};

impl Chain<'_> {
    // One level's verdict. Level 0 always follows. A number, as `Layout::plane` takes one.
    fn level_verdict(self, packing: Packing, level: u32) -> Option<usize>
        requires { level ≤ top self.picture.width self.picture.height }
        ensures { result ≡ level_verdict_of (code_of self.entry.picture.kind) packing self.entry.picture.width self.entry.picture.height self.entry.texels.now level }
    {
        if level < 1 {
            return None;
        }
        let picture = self.picture;
        let before = PictureLevel {
            picture,
            number: level - 1,
        };
        let pair = Followed {
            shape: before.shape(),
            texels: &self.texels[before.start()..],
        };
        let wrong = check_next(picture.kind, packing, pair)?;
        Some(before.end() + wrong)
    }

    // The whole chain's: the first of its levels' verdicts.
    fn verdict(self, packing: Packing) -> Option<usize>
        ensures { result ≡ chain_verdict_of (code_of self.entry.picture.kind) packing self.entry.picture.width self.entry.picture.height self.entry.texels.now }
    {
        (0..=self.picture.top_level()).find_map(|level| self.level_verdict(packing, level))
    }
}

// Whether every level of a chain follows from the one before by the packing mode; else the first wrong texel's place.
#[tactic(auto, using(rules::proofs::Answering::answer_then, rules::proofs::Answering::or_else_assoc), unfolding(rules::specs::Refusals::chain_refusal, rules::specs::Refusals::mipmaps_refusal, rules::specs::Answers::check_chain_answer))]
pub fn check_chain(
    kind: u32,
    width: u32,
    height: u32,
    mode: u32,
    texels: &[u32],
) -> Result<Option<usize>, Refusal>
    ensures answer { result ≡ check_chain_answer kind width height mode texels.now }
{
    let picture = Picture::new(kind, width, height)?;
    let Lent { chain, packing } = lent_chain(picture, mode, texels)?;
    Ok(chain.verdict(packing))
}

// The same of one level.
#[tactic(auto, using(rules::proofs::Answering::answer_then, rules::proofs::Answering::or_else_assoc), unfolding(rules::specs::Refusals::chain_refusal, rules::specs::Refusals::mipmaps_refusal, rules::specs::Refusals::check_level_refusal, rules::specs::Answers::check_level_answer))]
pub fn check_level(
    kind: u32,
    width: u32,
    height: u32,
    mode: u32,
    texels: &[u32],
    level: u32,
) -> Result<Option<usize>, Refusal>
    ensures answer { result ≡ check_level_answer kind width height mode texels.now level }
{
    let picture = Picture::new(kind, width, height)?;
    let Lent { chain, packing } = lent_chain(picture, mode, texels)?;
    picture.check_level(level)?;
    Ok(chain.level_verdict(packing, level))
}
