// The lookups, exported.
ghost use Rattle.std.specs.Prelude.{◌≡◌};
ghost use Rattle.rules.specs.Refusals.{number_in};
ghost use Rattle.rules.specs.Answers.{mip_level_answer, sample4_rgb_answer, sample4_alpha_answer, bilinear_rgb_answer, bilinear_alpha_answer, facing_answer, cubemap_answer, trilinear_answer};
ghost use Rattle.station.specs.Written.{to_lanes, to_wholes, to_directions, sampler_of, handed, number_words, four_words, colour_words, uv_words, faces_words};

#[unsafe(no_mangle)]
pub extern "C" fn swathecold_compute_mip_level(
    width: u32,
    height: u32,
    steps: &[f32; 4],
    level: &mut u32,
) -> u32
    ensures number { result ≡ number_in (mip_level_answer width height (to_lanes steps.now)) }
    ensures writes { level.new ≡ handed number_words (mip_level_answer width height (to_lanes steps.now)) level.old }
{
    station::samples::swathecold_compute_mip_level(width, height, steps, level)
}

#[unsafe(no_mangle)]
pub extern "C" fn swathecold_sample4_rgb(
    kind: u32,
    width: u32,
    height: u32,
    texels: &[u32],
    wrap_s: u32,
    wrap_t: u32,
    u: &[f32; 4],
    v: &[f32; 4],
    steps: &[f32; 4],
    rgb: &mut [f32; 12],
) -> u32
    ensures number { result ≡ number_in (sample4_rgb_answer kind width height texels.now (sampler_of wrap_s wrap_t) (to_lanes u.now) (to_lanes v.now) (to_lanes steps.now)) }
    ensures writes { rgb.new ≡ handed colour_words (sample4_rgb_answer kind width height texels.now (sampler_of wrap_s wrap_t) (to_lanes u.now) (to_lanes v.now) (to_lanes steps.now)) rgb.old }
{
    station::samples::swathecold_sample4_rgb(
        kind, width, height, texels, wrap_s, wrap_t, u, v, steps, rgb,
    )
}

#[unsafe(no_mangle)]
pub extern "C" fn swathecold_sample4_alpha(
    kind: u32,
    width: u32,
    height: u32,
    texels: &[u32],
    wrap_s: u32,
    wrap_t: u32,
    u: &[f32; 4],
    v: &[f32; 4],
    steps: &[f32; 4],
    alpha: &mut [f32; 4],
) -> u32
    ensures number { result ≡ number_in (sample4_alpha_answer kind width height texels.now (sampler_of wrap_s wrap_t) (to_lanes u.now) (to_lanes v.now) (to_lanes steps.now)) }
    ensures writes { alpha.new ≡ handed four_words (sample4_alpha_answer kind width height texels.now (sampler_of wrap_s wrap_t) (to_lanes u.now) (to_lanes v.now) (to_lanes steps.now)) alpha.old }
{
    station::samples::swathecold_sample4_alpha(
        kind, width, height, texels, wrap_s, wrap_t, u, v, steps, alpha,
    )
}

#[unsafe(no_mangle)]
pub extern "C" fn swathecold_sample_bilinear_rgb(
    kind: u32,
    width: u32,
    height: u32,
    texels: &[u32],
    wrap_s: u32,
    wrap_t: u32,
    u: &[f32; 4],
    v: &[f32; 4],
    level: u32,
    faces: &[u32; 4],
    rgb: &mut [f32; 12],
) -> u32
    ensures number { result ≡ number_in (bilinear_rgb_answer kind width height texels.now (sampler_of wrap_s wrap_t) (to_lanes u.now) (to_lanes v.now) level (to_wholes faces.now)) }
    ensures writes { rgb.new ≡ handed colour_words (bilinear_rgb_answer kind width height texels.now (sampler_of wrap_s wrap_t) (to_lanes u.now) (to_lanes v.now) level (to_wholes faces.now)) rgb.old }
{
    station::samples::swathecold_sample_bilinear_rgb(
        kind, width, height, texels, wrap_s, wrap_t, u, v, level, faces, rgb,
    )
}

#[unsafe(no_mangle)]
pub extern "C" fn swathecold_sample_bilinear_alpha(
    kind: u32,
    width: u32,
    height: u32,
    texels: &[u32],
    wrap_s: u32,
    wrap_t: u32,
    u: &[f32; 4],
    v: &[f32; 4],
    level: u32,
    alpha: &mut [f32; 4],
) -> u32
    ensures number { result ≡ number_in (bilinear_alpha_answer kind width height texels.now (sampler_of wrap_s wrap_t) (to_lanes u.now) (to_lanes v.now) level) }
    ensures writes { alpha.new ≡ handed four_words (bilinear_alpha_answer kind width height texels.now (sampler_of wrap_s wrap_t) (to_lanes u.now) (to_lanes v.now) level) alpha.old }
{
    station::samples::swathecold_sample_bilinear_alpha(
        kind, width, height, texels, wrap_s, wrap_t, u, v, level, alpha,
    )
}

#[unsafe(no_mangle)]
pub extern "C" fn swathecold_cubemap_uv_from_normal(
    x: &[f32; 4],
    y: &[f32; 4],
    z: &[f32; 4],
    uv: &mut [f32; 8],
    faces: &mut [u32; 4],
) -> u32
    ensures number { result ≡ number_in (facing_answer (to_directions x.now y.now z.now)) }
    ensures places { uv.new ≡ handed uv_words (facing_answer (to_directions x.now y.now z.now)) uv.old }
    ensures faces { faces.new ≡ handed faces_words (facing_answer (to_directions x.now y.now z.now)) faces.old }
{
    station::samples::swathecold_cubemap_uv_from_normal(x, y, z, uv, faces)
}

#[unsafe(no_mangle)]
pub extern "C" fn swathecold_sample_cubemap_rgb(
    kind: u32,
    width: u32,
    height: u32,
    texels: &[u32],
    x: &[f32; 4],
    y: &[f32; 4],
    z: &[f32; 4],
    levels: &[u32; 4],
    rgb: &mut [f32; 12],
) -> u32
    ensures number { result ≡ number_in (cubemap_answer kind width height texels.now (to_directions x.now y.now z.now) (to_wholes levels.now)) }
    ensures writes { rgb.new ≡ handed colour_words (cubemap_answer kind width height texels.now (to_directions x.now y.now z.now) (to_wholes levels.now)) rgb.old }
{
    station::samples::swathecold_sample_cubemap_rgb(
        kind, width, height, texels, x, y, z, levels, rgb,
    )
}

#[unsafe(no_mangle)]
pub extern "C" fn swathecold_sample_cubemap_trilinear_rgb(
    kind: u32,
    width: u32,
    height: u32,
    texels: &[u32],
    x: &[f32; 4],
    y: &[f32; 4],
    z: &[f32; 4],
    levels: &[f32; 4],
    rgb: &mut [f32; 12],
) -> u32
    ensures number { result ≡ number_in (trilinear_answer kind width height texels.now (to_directions x.now y.now z.now) (to_lanes levels.now)) }
    ensures writes { rgb.new ≡ handed colour_words (trilinear_answer kind width height texels.now (to_directions x.now y.now z.now) (to_lanes levels.now)) rgb.old }
{
    station::samples::swathecold_sample_cubemap_trilinear_rgb(
        kind, width, height, texels, x, y, z, levels, rgb,
    )
}
