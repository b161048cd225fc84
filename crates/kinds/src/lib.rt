// One texel of four, by each rule and packing mode, and a row of them from the two rows above.
#![tactic(auto)]

pub mod above;
pub mod channel;
pub mod linear;
pub mod metallic;
pub mod normal;
pub mod rounded;
pub mod rule;
pub mod srgb;
