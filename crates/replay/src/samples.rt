// The lookups: each asked as a record says, and its answer compared. Each has an array of its own for what is handed out: no function is
// proved yet that is handed a closure over an array of any length.
use crate::answers::agrees;
use crate::words::{Record, bits, lanes, wholes};
use station::samples;

// Call 5.
pub fn compute_mip_level_agrees(record: &Record) -> bool {
    let steps = lanes(record, 6);
    let mut level = 0u32;
    let refusal = samples::swathecold_compute_mip_level(record[3], record[4], &steps, &mut level);
    agrees(record, refusal, &[level], 0)
}

// Call 6.
pub fn sample4_rgb_agrees(record: &Record, texels: &mut [u32]) -> bool {
    let [_, _, kind, width, height, _, wrap_s, wrap_t, ..] = *record;
    let (u, v, steps) = (lanes(record, 8), lanes(record, 12), lanes(record, 16));
    let mut rgb = [0.0f32; 12];
    let refusal = samples::swathecold_sample4_rgb(
        kind, width, height, texels, wrap_s, wrap_t, &u, &v, &steps, &mut rgb,
    );
    agrees(record, refusal, &rgb.map(bits), 0)
}

// Call 7.
pub fn sample4_alpha_agrees(record: &Record, texels: &mut [u32]) -> bool {
    let [_, _, kind, width, height, _, wrap_s, wrap_t, ..] = *record;
    let (u, v, steps) = (lanes(record, 8), lanes(record, 12), lanes(record, 16));
    let mut alpha = [0.0f32; 4];
    let refusal = samples::swathecold_sample4_alpha(
        kind, width, height, texels, wrap_s, wrap_t, &u, &v, &steps, &mut alpha,
    );
    agrees(record, refusal, &alpha.map(bits), 0)
}

// Call 8.
pub fn sample_bilinear_rgb_agrees(record: &Record, texels: &mut [u32]) -> bool {
    let [_, _, kind, width, height, _, wrap_s, wrap_t, ..] = *record;
    let (u, v, faces) = (lanes(record, 8), lanes(record, 12), wholes(record, 17));
    let mut rgb = [0.0f32; 12];
    let refusal = samples::swathecold_sample_bilinear_rgb(
        kind, width, height, texels, wrap_s, wrap_t, &u, &v, record[16], &faces, &mut rgb,
    );
    agrees(record, refusal, &rgb.map(bits), 0)
}

// Call 9.
pub fn sample_bilinear_alpha_agrees(record: &Record, texels: &mut [u32]) -> bool {
    let [_, _, kind, width, height, _, wrap_s, wrap_t, ..] = *record;
    let (u, v) = (lanes(record, 8), lanes(record, 12));
    let mut alpha = [0.0f32; 4];
    let refusal = samples::swathecold_sample_bilinear_alpha(
        kind, width, height, texels, wrap_s, wrap_t, &u, &v, record[16], &mut alpha,
    );
    agrees(record, refusal, &alpha.map(bits), 0)
}

// Call 10.
pub fn cubemap_uv_from_normal_agrees(record: &Record) -> bool {
    let (x, y, z) = (lanes(record, 6), lanes(record, 10), lanes(record, 14));
    let mut uv = [0.0f32; 8];
    let mut faces = [0u32; 4];
    let refusal = samples::swathecold_cubemap_uv_from_normal(&x, &y, &z, &mut uv, &mut faces);
    let mut words = [0u32; 12];
    words[..8].copy_from_slice(&uv.map(bits));
    words[8..].copy_from_slice(&faces);
    agrees(record, refusal, &words, 0)
}

// Call 11.
pub fn sample_cubemap_rgb_agrees(record: &Record, texels: &mut [u32]) -> bool {
    let [_, _, kind, width, height, ..] = *record;
    let (x, y, z) = (lanes(record, 6), lanes(record, 10), lanes(record, 14));
    let levels = wholes(record, 18);
    let mut rgb = [0.0f32; 12];
    let refusal = samples::swathecold_sample_cubemap_rgb(
        kind, width, height, texels, &x, &y, &z, &levels, &mut rgb,
    );
    agrees(record, refusal, &rgb.map(bits), 0)
}

// Call 12.
pub fn sample_cubemap_trilinear_rgb_agrees(record: &Record, texels: &mut [u32]) -> bool {
    let [_, _, kind, width, height, ..] = *record;
    let (x, y, z) = (lanes(record, 6), lanes(record, 10), lanes(record, 14));
    let levels = lanes(record, 18);
    let mut rgb = [0.0f32; 12];
    let refusal = samples::swathecold_sample_cubemap_trilinear_rgb(
        kind, width, height, texels, &x, &y, &z, &levels, &mut rgb,
    );
    agrees(record, refusal, &rgb.map(bits), 0)
}
