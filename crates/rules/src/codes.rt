// Codes to kinds and modes: every code that stands for none is refused. Three impls of one form: each is its table of codes, as document 01
// has it.
ghost use Rattle.std.specs.Prelude.{◌≡◌};
ghost use Rattle.rules.specs.Kinds.{faces_of, code_of};
ghost use Rattle.rules.specs.Answers.{kind_decodes, packing_decodes, wrap_decodes};

use crate::{Kind, Mode, Packing, Refusal};

// 0 SRGB, 1 Normal, 2 MetallicRoughness, 3 Cubemap, 4 Linear; refusal 1 for every other code.
impl TryFrom<u32> for Kind {
    type Error = Refusal;

    ghost try_from_gives = { kind_decodes };

    #[tactic(auto, unfolding(crate::specs::Refusals::kind_refusal, crate::specs::Refusals::refusal_of, crate::specs::Kinds::kind_of, crate::specs::Answers::answer))]
    fn try_from(code: u32) -> Result<Self, Refusal> {
        match code {
            0 => Ok(Kind::Srgb),
            1 => Ok(Kind::Normal),
            2 => Ok(Kind::MetallicRoughness),
            3 => Ok(Kind::Cubemap),
            4 => Ok(Kind::Linear),
            _ => Err(Refusal::UnknownKind),
        }
    }
}

impl Kind {
    // Document 01's code.
    pub fn code(self) -> u32
        ensures { result ≡ code_of self }
    {
        self as u32
    }

    // Six faces for a cubemap, one for every other kind.
    #[tactic(auto, unfolding(crate::specs::Kinds::faces_of))]
    pub fn faces(self) -> usize
        ensures { result ≡ faces_of (code_of self) }
    {
        match self {
            Kind::Cubemap => 6,
            _ => 1,
        }
    }
}

// 0 truncating, 1 nearest; refusal 15 for every other code.
impl TryFrom<u32> for Packing {
    type Error = Refusal;

    ghost try_from_gives = { packing_decodes };

    #[tactic(auto, unfolding(crate::specs::Refusals::mode_refusal, crate::specs::Refusals::refusal_of, crate::specs::Packing::packing_code, crate::specs::Answers::answer))]
    fn try_from(code: u32) -> Result<Self, Refusal> {
        match code {
            0 => Ok(Packing::Truncating),
            1 => Ok(Packing::Nearest),
            _ => Err(Refusal::UnknownPacking),
        }
    }
}

// 10497 Repeat, 33071 ClampToEdge, 33648 MirroredRepeat, 0 not given; refusal 4 for every other code.
impl TryFrom<u32> for Mode {
    type Error = Refusal;

    ghost try_from_gives = { wrap_decodes };

    #[tactic(auto, unfolding(crate::specs::Refusals::wrap_refusal, crate::specs::Refusals::refusal_of, crate::specs::Wrapping::wrap_code, crate::specs::Answers::answer))]
    fn try_from(code: u32) -> Result<Self, Refusal> {
        match code {
            10497 => Ok(Mode::Repeat),
            33071 => Ok(Mode::Clamp),
            33648 => Ok(Mode::Mirror),
            0 => Ok(Mode::Repeat),
            _ => Err(Refusal::UnknownWrap),
        }
    }
}
