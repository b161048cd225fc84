// The lookups: the station's samplers, four lanes at a time.
#![tactic(auto)]

mod bilinear;
mod cubemap;
mod facing;
mod mip;
mod nearest;
mod trilinear;

pub use bilinear::{sample_bilinear_alpha, sample_bilinear_rgb};
pub use cubemap::sample_cubemap_rgb;
pub use facing::cubemap_uv_from_normal;
pub use mip::compute_mip_level;
pub use nearest::{sample4_alpha, sample4_rgb};
pub use trilinear::sample_cubemap_trilinear_rgb;
