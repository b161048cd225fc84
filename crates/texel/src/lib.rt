// One texel and one number: bytes, packing, whole numbers.
#![tactic(auto)]

pub mod bytes;
pub mod curve;
pub mod index;
pub mod packing;
pub mod root;
pub mod whole;
