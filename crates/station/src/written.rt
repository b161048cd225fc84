// An answer handed out: its words through the out parameter, and 0; or its refusal's number, and nothing written.
ghost use Rattle.std.specs.Prelude.{◌≡◌};
ghost use Rattle.rules.specs.Refusals.{number_in};
ghost use Rattle.station.specs.Written.{handed, number_words, sizes_words, verdict_words, four_words, colour_words, uv_words, faces_words, light_words, part_words};

use rules::{Directions, Four, LevelSizes, Refusal, Sh4, Spots};
use texture::Face;

// What is handed out for a value. A trait, and no `From`: neither it nor the types are this crate's own.
pub trait Words<W> {
    ghost words_of: { Self → W };

    fn words(self) -> W
        ensures { result ≡ words_of self };
}

// The number of an answer that has nothing to hand out. Beside `hand_out`, which wants an out parameter: C gives none here.
pub fn number(answer: Result<(), Refusal>) -> u32
    ensures { result ≡ number_in answer }
{
    match answer {
        Ok(()) => 0,
        Err(refusal) => refusal.number(),
    }
}

pub fn hand_out<T: Words<W>, W: Copy>(answer: Result<T, Refusal>, out: &mut W) -> u32
    ensures number { result ≡ number_in answer }
    ensures writes { out.new ≡ handed T.words_of answer out.old }
{
    match answer {
        Ok(given) => {
            *out = given.words();
            0
        }
        Err(refusal) => refusal.number(),
    }
}

// A count of texels or bytes.
impl Words<u64> for usize {
    ghost words_of = { number_words };

    fn words(self) -> u64 {
        self as u64
    }
}

// A level.
impl Words<u32> for u32 {
    ghost words_of = { number_words };

    fn words(self) -> u32 {
        self
    }
}

impl Words<[u64; 4]> for LevelSizes {
    ghost words_of = { sizes_words };

    fn words(self) -> [u64; 4] {
        [
            self.start as u64,
            self.width as u64,
            self.height as u64,
            self.total as u64,
        ]
    }
}

// A verdict: 1 and 0 where the levels follow; else 0 and the first wrong texel's place.
impl Words<[u64; 2]> for Option<usize> {
    ghost words_of = { verdict_words };

    fn words(self) -> [u64; 2] {
        match self {
            None => [1, 0],
            Some(place) => [0, place as u64],
        }
    }
}

// The place of a part.
impl Words<[u64; 2]> for Face {
    ghost words_of = { part_words };

    fn words(self) -> [u64; 2] {
        [self.start as u64, self.size as u64]
    }
}

impl<T: Copy> Words<[T; 4]> for Four<T> {
    ghost words_of = { four_words };

    fn words(self) -> [T; 4] {
        [self.a, self.b, self.c, self.d]
    }
}

// Four colours.
impl Words<[f32; 12]> for Directions {
    ghost words_of = { colour_words };

    fn words(self) -> [f32; 12] {
        let (x, y, z) = (self.x, self.y, self.z);
        [x.a, x.b, x.c, x.d, y.a, y.b, y.c, y.d, z.a, z.b, z.c, z.d]
    }
}

impl Words<[f32; 8]> for Spots {
    ghost words_of = { uv_words };

    fn words(self) -> [f32; 8] {
        let (u, v) = (self.u, self.v);
        [u.a, u.b, u.c, u.d, v.a, v.b, v.c, v.d]
    }
}

impl Words<[u32; 4]> for Spots {
    ghost words_of = { faces_words };

    fn words(self) -> [u32; 4] {
        self.face.words()
    }
}

impl Words<[f32; 12]> for Sh4 {
    ghost words_of = { light_words };

    fn words(self) -> [f32; 12] {
        let (c, y, z, x) = (self.constant, self.y, self.z, self.x);
        [c.r, c.g, c.b, y.r, y.g, y.b, z.r, z.g, z.b, x.r, x.g, x.b]
    }
}
