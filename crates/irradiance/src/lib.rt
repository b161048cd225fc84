// Lighting coefficients: a cubemap as four irradiance coefficients per colour.
// It stands on the unit's own calls `level_sizes` and `srgb_to_linear`; the bytes of a texel and the square root are those of the crate
// `texel`.
// So the call takes a code, as those do.
#![tactic(auto)]

pub mod call;
pub mod cubemap;
pub mod part;
pub mod place;
pub mod refusals;
pub mod root;
pub mod sums;
pub mod tones;

pub use call::irradiance_sh4;
