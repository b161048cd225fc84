// A picture of which nothing is refused: its kind is known, and its sides are 1 to 4,096. How many texels its chain has, and what of it a
// call may refuse.
ghost use Rattle.reduce.specs.Levels.{Sides};
ghost use Rattle.rules.specs.Kinds.{faces_of, code_of};

use crate::refusals::{check_level, check_sides};
use crate::sizes::{count_of, top_level};
use reduce::shape::Shape;
use rules::{Kind, Refusal};

#[derive(Clone, Copy)]
pub struct Picture {
    pub kind: Kind,
    pub width: u32,
    pub height: u32,
    pub ghost sides: { Sides (faces_of (code_of kind)) width height },
}

impl Picture {
    ghost use Rattle.std.specs.Prelude.{◌≡◌, ◌*◌, ◌<◌, ◌≤◌, IfOk};
    ghost use Rattle.rules.specs.Sizes.{top, count};
    ghost use Rattle.rules.specs.Refusals.{picture_refusal, level_refusal, no_cubemap_refusal, only_cubemap_refusal, face_taken, face_refusal};
    ghost use Rattle.rules.specs.Answers.{done, told};
    ghost use Rattle.levels.specs.Pictures.{IsPicture};

    // 1, 2: the kind, then the sides. A code, as every call is handed one.
    #[tactic(auto, using(rules::proofs::Answering::answer_or, rules::proofs::Answering::answer_as), unfolding(rules::specs::Refusals::picture_refusal))]
    pub fn new(kind: u32, width: u32, height: u32) -> Result<Picture, Refusal>
        ensures told { done result ≡ told (picture_refusal kind width height) }
        ensures is { IfOk result (λ p. IsPicture kind width height p) }
    {
        let kind = Kind::try_from(kind)?;
        check_sides(width, height)?;
        Ok(Picture {
            kind,
            width,
            height,
        })
    }

    // The shape of level 0.
    pub fn shape(self) -> Shape
        ensures { (result.faces ≡ faces_of (code_of self.kind)) × (result.width ≡ self.width) × (result.height ≡ self.height) }
    {
        Shape::new(self.kind.faces(), self.width as usize, self.height as usize)
    }

    // The top level: floor(log2(larger side)).
    pub fn top_level(self) -> u32
        ensures { (result ≡ top self.width self.height) × (result ≤ 12) }
    {
        top_level(self.width, self.height)
    }

    // The texels of level 0.
    pub fn level0(self) -> usize
        ensures { result ≡ faces_of (code_of self.kind) * self.height * self.width }
    {
        self.shape().size()
    }

    // The whole chain's texels.
    pub fn count(self) -> usize
        ensures { result ≡ count (faces_of (code_of self.kind)) self.width self.height }
    {
        count_of(self.kind.faces(), self.width, self.height)
    }

    // 6: level above the top level.
    pub fn check_level(self, level: u32) -> Result<(), Refusal>
        ensures told { result ≡ told (level_refusal self.width self.height level) }
        ensures below { IfOk result (λ _. (level ≤ top self.width self.height) × (level ≤ 12)) }
    {
        check_level(self.width, self.height, level)
    }

    // 8: a cubemap, to a call that does not take it. Beside `check_cubemap`: two refusals of document 01 with one number.
    #[tactic(auto, unfolding(rules::specs::Refusals::no_cubemap_refusal, rules::specs::Refusals::refusal_of, rules::specs::Answers::answer))]
    pub fn check_no_cubemap(self) -> Result<(), Refusal>
        ensures { result ≡ told (no_cubemap_refusal (code_of self.kind)) }
    {
        match self.kind {
            Kind::Cubemap => Err(Refusal::KindNotTaken),
            _ => Ok(()),
        }
    }

    // 8: another kind, to a call that takes cubemaps only.
    #[tactic(auto, unfolding(rules::specs::Refusals::only_cubemap_refusal, rules::specs::Refusals::refusal_of, rules::specs::Answers::answer))]
    pub fn check_cubemap(self) -> Result<(), Refusal>
        ensures { result ≡ told (only_cubemap_refusal (code_of self.kind)) }
    {
        match self.kind {
            Kind::Cubemap => Ok(()),
            _ => Err(Refusal::KindNotTaken),
        }
    }

    // Whether it has the face: a cubemap 0 to 5, another kind 0 alone.
    pub fn has_face(self, face: u32) -> bool
        ensures { result ≡ face_taken (code_of self.kind) face }
    {
        (face as usize) < self.kind.faces()
    }

    // 8: a face that it has not.
    #[tactic(auto, unfolding(rules::specs::Refusals::face_refusal, rules::specs::Refusals::refusal_of, rules::specs::Answers::answer))]
    pub fn check_face(self, face: u32) -> Result<(), Refusal>
        ensures told { result ≡ told (face_refusal (code_of self.kind) face) }
        ensures below { IfOk result (λ _. face < faces_of (code_of self.kind)) }
    {
        if self.has_face(face) {
            Ok(())
        } else {
            Err(Refusal::KindNotTaken)
        }
    }
}
