// Sides, level numbers, and where each level starts; and the call that answers a level's sizes.
ghost use Rattle.std.specs.Prelude.{◌≡◌, ◌<◌, ◌≤◌};
ghost use Rattle.rules.specs.Sizes.{side_at, log2, top, size_at, start, count};
ghost use Rattle.rules.specs.Answers.{level_sizes_answer};

use crate::level::PictureLevel;
use crate::picture::Picture;
use rules::{LevelSizes, Refusal};

// A side at a level: shifted right by its number, and at least 1.
#[tactic(auto, unfolding(rules::specs::Sizes::side_at))]
pub fn side_at(side: u32, level: u32) -> u32
    requires { level < 32 }
    ensures { result ≡ side_at level side }
{
    (side >> level).max(1)
}

// floor(log2 n), and 0 at 0.
fn log2(n: u32) -> u32
    ensures { result ≡ log2 n }
{
    (n | 1).ilog2()
}

// The top level: floor(log2(larger side)).
#[tactic(auto, unfolding(rules::specs::Sizes::top))]
pub fn top_level(width: u32, height: u32) -> u32
    ensures { result ≡ top width height }
{
    log2(width.max(height))
}

// The texels of a level.
#[tactic(auto, unfolding(rules::specs::Sizes::size_at))]
fn size_at(faces: usize, width: u32, height: u32, level: u32) -> usize
    requires { (faces ≤ 6) × (width ≤ 4096) × (height ≤ 4096) × (level ≤ 12) }
    ensures { result ≡ size_at faces width height level }
{
    faces * (side_at(height, level) as usize) * (side_at(width, level) as usize)
}

// Where a level starts: levels follow each other without gaps. Beside `walk::starts_of`: one level's start, with no table of them all.
pub fn start_of(faces: usize, width: u32, height: u32, level: u32) -> usize
    requires { (faces ≤ 6) × (width ≤ 4096) × (height ≤ 4096) × (level ≤ 13) }
    ensures { result ≡ start faces width height level }
{
    let mut at = 0;
    for m in 0..level {
        at += size_at(faces, width, height, m);
    }
    at
}

// The whole chain's texels.
#[tactic(auto, unfolding(rules::specs::Sizes::count))]
pub fn count_of(faces: usize, width: u32, height: u32) -> usize
    requires { (faces ≤ 6) × (0 < width) × (width ≤ 4096) × (height ≤ 4096) }
    ensures { result ≡ count faces width height }
{
    start_of(faces, width, height, top_level(width, height) + 1)
}

// Level sizes: the level's start and sides with the chain's texel count. 1, 2, 6.
#[tactic(auto, using(rules::proofs::Answering::answer_or, rules::proofs::Answering::answer_as), unfolding(rules::specs::Refusals::level_sizes_refusal, rules::specs::Answers::level_sizes_answer))]
pub fn level_sizes(kind: u32, width: u32, height: u32, level: u32) -> Result<LevelSizes, Refusal>
    ensures answer { result ≡ level_sizes_answer kind width height level }
{
    let picture = Picture::new(kind, width, height)?;
    picture.check_level(level)?;
    let at = PictureLevel {
        picture,
        number: level,
    };
    Ok(LevelSizes {
        start: at.start(),
        width: at.width(),
        height: at.height(),
        total: picture.count(),
    })
}
