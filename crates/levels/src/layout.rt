// Where every level of a picture's chain starts, and that the chain lies within what is lent.
ghost use Rattle.rules.specs.Kinds.{faces_of, code_of};
ghost use Rattle.levels.specs.Starts.{Started};

use crate::level::PictureLevel;
use crate::picture::Picture;
use crate::refusals::check_room;
use crate::walk::starts_of;
use rules::{Plane, Refusal};

#[derive(Clone, Copy)]
pub struct Layout {
    pub picture: Picture,
    pub starts: [u32; 13],
    pub ghost started: { Started (faces_of (code_of picture.kind)) picture.width picture.height starts },
}

impl Layout {
    ghost use Rattle.std.specs.Prelude.{◌≡◌, ◌≤◌, IfOk};
    ghost use Rattle.rules.specs.Sizes.{top, count};
    ghost use Rattle.rules.specs.Places.{plane_of};
    ghost use Rattle.rules.specs.Refusals.{buffer_refusal};
    ghost use Rattle.rules.specs.Answers.{done, told};

    // 3: a buffer of n entries for the picture's whole chain. A number: for a file it is asked before there is a buffer.
    pub fn new(picture: Picture, n: usize) -> Result<Layout, Refusal>
        ensures told { done result ≡ told (buffer_refusal (count (faces_of (code_of picture.kind)) picture.width picture.height) n) }
        ensures is { IfOk result (λ l. l.picture ≡ picture) }
        ensures room { IfOk result (λ _. count (faces_of (code_of picture.kind)) picture.width picture.height ≤ n) }
    {
        let mut starts = [0u32; 13];
        let faces = picture.kind.faces() as u32;
        let total = starts_of(faces, picture.width, picture.height, &mut starts);
        check_room(total as usize, n)?;
        Ok(Layout { picture, starts })
    }

    // A level: where it starts, and its faces and their sides.
    // A number, and no `PictureLevel`: that carries a picture of its own, and this would ask that it is the layout's.
    #[tactic(auto, unfolding(rules::specs::Places::plane_of))]
    pub fn plane(&self, level: u32) -> Plane
        requires { level ≤ top self.now.picture.width self.now.picture.height }
        ensures { result ≡ plane_of (code_of self.now.picture.kind) self.now.picture.width self.now.picture.height level }
    {
        let at = PictureLevel {
            picture: self.picture,
            number: level,
        };
        Plane {
            start: self.starts[level as usize] as usize,
            faces: self.picture.kind.faces(),
            width: at.width() as usize,
            height: at.height() as usize,
        }
    }
}
