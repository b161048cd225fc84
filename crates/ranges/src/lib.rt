// Ranges beside a picture that is no cubemap: of every tile of its level 0 the smallest and the largest value of each channel.
// It stands on the unit's own calls alone: `level_sizes` says which pictures are taken, `cut` takes a tile out.
// So the calls take codes, as those do.
#![tactic(auto)]

pub mod build;
pub mod level0;
pub mod refusals;
pub mod replace;
pub mod scan;
pub mod tile;

pub use build::build_ranges;
pub use replace::replace_texel;
