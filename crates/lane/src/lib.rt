// The lookups' parts: the places of four lanes, the texels that are read there, and what they make.
#![tactic(auto)]

pub mod bilinear;
pub mod cubemap;
pub mod level;
pub mod nearest;
pub mod pixel;
pub mod reading;
pub mod spots;
pub mod trilinear;
