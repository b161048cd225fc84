// A level's faces and sides, and where the rows of the next level come from.
ghost use Rattle.std.specs.Prelude.{◌≡◌, ◌+◌, ◌-◌, ◌*◌, ◌<◌, ◌≤◌, min, length, take, drop};
ghost use Rattle.rules.specs.Sizes.{half};
ghost use Rattle.reduce.specs.Levels.{Sides, first_row, second_row};

use kinds::above::Rows;

#[derive(Clone, Copy)]
pub struct Shape {
    pub faces: usize,
    pub width: usize,
    pub height: usize,
    ghost sides: { Sides faces width height },
}

// Where the two rows of a level start that a row of the next is made from.
// The level and its width stand beside it: they stay, and a value that held them too would be made, and its bounds shown, for every row.
#[derive(Clone, Copy)]
pub struct Above {
    pub first: usize,
    pub second: usize,
}

// A level, at the front of some texels, and the next behind it.
#[derive(Clone, Copy)]
pub struct Followed<'a> {
    pub shape: Shape,
    pub texels: &'a [u32],
    pub ghost room: { shape.faces * shape.height * shape.width + shape.faces * half shape.height * half shape.width ≤ length texels.now },
}

impl Above {
    // The two rows of a level, w wide.
    pub fn rows(self, w: usize, level: &[u32]) -> Rows<'_>
        requires { (self.first + w ≤ length level.now) × (self.second + w ≤ length level.now) }
        ensures rows { (result.first.now ≡ take w (drop self.first level.now)) × (result.second.now ≡ take w (drop self.second level.now)) }
        ensures width { length result.first.now ≡ w }
    {
        Rows::new(
            &level[self.first..self.first + w],
            &level[self.second..self.second + w],
        )
    }
}

// The next level's side: shifted right by 1, and at least 1.
pub fn halved(s: usize) -> usize
    ensures { result ≡ half s }
{
    (s / 2).max(1)
}

// y1 = min(2y + 1, previous height - 1)
fn second(y: usize, h: usize) -> usize
    requires { (1 ≤ h) × (y < half h) × (h ≤ 4096) }
    ensures { result ≡ min (2 * y + 1) (h - 1) }
{
    (2 * y + 1).min(h - 1)
}

// Where those of row y start, counted through all faces, each h2 high in the next level: rows y0 and y1 of its own face.
pub fn rows_above(y: usize, w: usize, h: usize, h2: usize) -> Above
    requires { (1 ≤ h) × (h ≤ 4096) × (w ≤ 4096) × (h2 ≡ half h) × (y < 24576) }
    ensures { (result.first ≡ first_row w h h2 y) × (result.second ≡ second_row w h h2 y) }
{
    let top = y / h2 * h;
    let i = y % h2;
    let j = second(i, h);
    Above {
        first: (top + 2 * i) * w,
        second: (top + j) * w,
    }
}

impl Shape {
    // It asks for the sides, since it makes the value whose ghost field says them.
    pub fn new(faces: usize, width: usize, height: usize) -> Shape
        requires { Sides faces width height }
        ensures { (result.faces ≡ faces) × (result.width ≡ width) × (result.height ≡ height) }
    {
        Shape {
            faces,
            width,
            height,
        }
    }

    // How many texels the level has.
    pub fn size(self) -> usize
        ensures { result ≡ self.faces * self.height * self.width }
    {
        self.faces * self.height * self.width
    }

    // The next level's.
    pub fn next(self) -> Shape
        ensures { (result.faces ≡ self.faces) × (result.width ≡ half self.width) × (result.height ≡ half self.height) }
    {
        Shape {
            faces: self.faces,
            width: halved(self.width),
            height: halved(self.height),
        }
    }

    // Those of row y of the next level.
    // y stands beside its shape: a loop's test says that it is a row, and a type for both would say it again.
    pub fn rows_above(self, y: usize) -> Above
        requires { y < 24576 }
        ensures { (result.first ≡ first_row self.width self.height (half self.height) y) × (result.second ≡ second_row self.width self.height (half self.height) y) }
    {
        rows_above(y, self.width, self.height, halved(self.height))
    }
}
