// The records that the calls take and give, the reasons for which they refuse, and the codes that stand for kinds and modes. What each
// call answers is said in specs/.
#![tactic(auto)]

mod codes;
mod refusals;

// Four values that travel together, one a lane.
#[derive(Clone, Copy)]
pub struct Four<T> {
    pub a: T,
    pub b: T,
    pub c: T,
    pub d: T,
}

// Four numbers.
pub type Lanes = Four<f32>;

// Four whole numbers.
pub type Wholes = Four<u32>;

// Three components.
#[derive(Clone, Copy)]
pub struct Vector<T> {
    pub x: T,
    pub y: T,
    pub z: T,
}

// Four directions; also four colours, red, green and blue.
pub type Directions = Vector<Lanes>;

// The wrap codes along u and along v. Codes: the sampling calls take every one, and refuse an unknown one in its turn.
#[derive(Clone, Copy)]
pub struct Sampler {
    pub wrap_s: u32,
    pub wrap_t: u32,
}

// A place in a picture, or the sides of a part of it.
#[derive(Clone, Copy)]
pub struct Pair {
    pub x: u32,
    pub y: u32,
}

// Where a level starts and its sides, with the chain's texel count.
#[derive(Clone, Copy)]
pub struct LevelSizes {
    pub start: usize,
    pub width: u32,
    pub height: u32,
    pub total: usize,
}

// Why a call refuses, by document 01's numbers; 9 is retired.
#[derive(Clone, Copy, Debug, PartialEq, Eq, Hash)]
pub enum Refusal {
    UnknownKind = 1,
    SideOutside = 2,
    ShortBuffer = 3,
    UnknownWrap = 4,
    NumberOutside = 5,
    LevelAbove = 6,
    DirectionOutside = 7,
    KindNotTaken = 8,
    CrossOutside = 10,
    CutOutside = 11,
    NotTheFile = 12,
    PlaceOutside = 14,
    UnknownPacking = 15,
}

// The five kinds of picture.
#[derive(Clone, Copy, Debug, PartialEq, Eq, Hash)]
pub enum Kind {
    Srgb = 0,
    Normal = 1,
    MetallicRoughness = 2,
    Cubemap = 3,
    Linear = 4,
}

// The three wrap modes.
#[derive(Clone, Copy, Debug, PartialEq, Eq, Hash)]
pub enum Mode {
    Repeat,
    Clamp,
    Mirror,
}

// The two packing modes.
#[derive(Clone, Copy, Debug, PartialEq, Eq, Hash)]
pub enum Packing {
    Truncating,
    Nearest,
}

// A level within a chain: where it starts, and its faces and their sides. Flat, as `place_of` has it; `Shape` of reduce has the sides with what
// holds of them.
#[derive(Clone, Copy)]
pub struct Plane {
    pub start: usize,
    pub faces: usize,
    pub width: usize,
    pub height: usize,
}

// One lane's colour.
#[derive(Clone, Copy)]
pub struct Rgb {
    pub r: f32,
    pub g: f32,
    pub b: f32,
}

// Two texel numbers along a side, and how far the coordinate lies from the first to the second: N numbers and F floats, of one lane or of
// four, as in the three records below.
#[derive(Clone, Copy)]
pub struct Axis<N, F> {
    pub first: N,
    pub second: N,
    pub part: F,
}

// The four places of a bilinear lookup, and the two weights.
#[derive(Clone, Copy)]
pub struct Corners<N, F> {
    pub p00: N,
    pub p10: N,
    pub p01: N,
    pub p11: N,
    pub fx: F,
    pub fy: F,
}

// The four products of the weights.
#[derive(Clone, Copy)]
pub struct Weights {
    pub w00: f32,
    pub w10: f32,
    pub w01: f32,
    pub w11: f32,
}

// Where a direction meets the cube: the face, and the place on it.
#[derive(Clone, Copy)]
pub struct Met<N, F> {
    pub face: N,
    pub u: F,
    pub v: F,
}

// Where one direction does, and where four do.
pub type Spot = Met<u32, f32>;

pub type Spots = Met<Wholes, Lanes>;

// The two levels of a trilinear lookup, and how far the fractional level lies between them.
#[derive(Clone, Copy)]
pub struct Pairing<N, F> {
    pub low: N,
    pub high: N,
    pub part: F,
}

// Something for each of the four basis functions.
#[derive(Clone, Copy)]
pub struct Basis<T> {
    pub constant: T,
    pub y: T,
    pub z: T,
    pub x: T,
}

// A colour for each: the irradiance coefficients, or the sums that these are made of.
pub type Sh4 = Basis<Rgb>;
