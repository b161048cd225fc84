// Where a lookup reads: the numbers of one lane, with no texel read.
#![tactic(auto)]

pub mod axis;
pub mod blend;
pub mod coordinate;
pub mod cube;
pub mod face;
pub mod level;
pub mod place;
pub mod refusals;
pub mod side;
pub mod wrap;
