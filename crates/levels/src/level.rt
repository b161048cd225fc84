// A level of a picture: its sides, and where it starts and ends in the chain.
ghost use Rattle.std.specs.Prelude.{◌≤◌};
ghost use Rattle.rules.specs.Sizes.{top};

use crate::picture::Picture;
use crate::sizes::{side_at, start_of};
use reduce::shape::Shape;

#[derive(Clone, Copy)]
pub struct PictureLevel {
    pub picture: Picture,
    pub number: u32,
    pub ghost within: { number ≤ top picture.width picture.height },
}

impl PictureLevel {
    ghost use Rattle.std.specs.Prelude.{◌≡◌, ◌+◌};
    ghost use Rattle.rules.specs.Kinds.{faces_of, code_of};
    ghost use Rattle.rules.specs.Sizes.{side_at, start};

    // A side of the picture at the level.
    fn side(self, side: u32) -> u32
        ensures { result ≡ side_at self.number side }
    {
        side_at(side, self.number)
    }

    pub fn width(self) -> u32
        ensures { result ≡ side_at self.number self.picture.width }
    {
        self.side(self.picture.width)
    }

    pub fn height(self) -> u32
        ensures { result ≡ side_at self.number self.picture.height }
    {
        self.side(self.picture.height)
    }

    pub fn shape(self) -> Shape
        ensures { (result.faces ≡ faces_of (code_of self.picture.kind)) × (result.width ≡ side_at self.number self.picture.width) × (result.height ≡ side_at self.number self.picture.height) }
    {
        Shape::new(
            self.picture.kind.faces(),
            self.width() as usize,
            self.height() as usize,
        )
    }

    // Where it starts.
    pub fn start(self) -> usize
        ensures { result ≡ start (faces_of (code_of self.picture.kind)) self.picture.width self.picture.height self.number }
    {
        let picture = self.picture;
        start_of(
            picture.kind.faces(),
            picture.width,
            picture.height,
            self.number,
        )
    }

    // Where it ends, and the level above it starts.
    pub fn end(self) -> usize
        ensures { result ≡ start (faces_of (code_of self.picture.kind)) self.picture.width self.picture.height (self.number + 1) }
    {
        let picture = self.picture;
        let above = self.number + 1;
        start_of(picture.kind.faces(), picture.width, picture.height, above)
    }
}
