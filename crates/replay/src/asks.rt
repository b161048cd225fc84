// A record's call: the buffer that it is lent, and the call itself.
use crate::stream::{fill_texels, with_texels};
use crate::words::Record;
use crate::{checks, light, parts, range_calls, samples};

// The calls, by the list's numbers.
#[derive(Clone, Copy, Debug, PartialEq, Eq)]
enum Call {
    LevelSizes,
    GenerateMipmaps,
    CutCross,
    Cut,
    LevelView,
    ComputeMipLevel,
    Sample4Rgb,
    Sample4Alpha,
    SampleBilinearRgb,
    SampleBilinearAlpha,
    CubemapUvFromNormal,
    SampleCubemapRgb,
    SampleCubemapTrilinearRgb,
    BuildRanges,
    ReplaceTexel,
    IrradianceSh4,
    CheckChain,
    CheckLevel,
}

// A number that no call has.
#[derive(Clone, Copy, Debug, PartialEq, Eq)]
struct UnknownCall;

impl TryFrom<u32> for Call {
    type Error = UnknownCall;

    fn try_from(number: u32) -> Result<Self, UnknownCall> {
        match number {
            0 => Ok(Call::LevelSizes),
            1 => Ok(Call::GenerateMipmaps),
            2 => Ok(Call::CutCross),
            3 => Ok(Call::Cut),
            4 => Ok(Call::LevelView),
            5 => Ok(Call::ComputeMipLevel),
            6 => Ok(Call::Sample4Rgb),
            7 => Ok(Call::Sample4Alpha),
            8 => Ok(Call::SampleBilinearRgb),
            9 => Ok(Call::SampleBilinearAlpha),
            10 => Ok(Call::CubemapUvFromNormal),
            11 => Ok(Call::SampleCubemapRgb),
            12 => Ok(Call::SampleCubemapTrilinearRgb),
            13 => Ok(Call::BuildRanges),
            14 => Ok(Call::ReplaceTexel),
            15 => Ok(Call::IrradianceSh4),
            16 => Ok(Call::CheckChain),
            17 => Ok(Call::CheckLevel),
            _ => Err(UnknownCall),
        }
    }
}

// A call over the texels that it is lent.
fn lent<F: FnOnce(&Record, &mut [u32]) -> bool>(record: &Record, call: F) -> bool
    requires { F.IsAlwaysCallable call }
{
    with_texels(0, record[5], |texels: &mut [u32]| {
        fill_texels(record, texels);
        call(record, texels)
    })
}

// Whether the unit answers as the record says. A number that no call has agrees with nothing.
// An arm a call: they are the calls of the C interface, and take what each of them takes.
pub fn record_agrees(record: &Record) -> bool {
    let Ok(call) = Call::try_from(record[0]) else {
        return false;
    };
    match call {
        Call::LevelSizes => parts::level_sizes_agrees(record),
        Call::GenerateMipmaps => lent(record, parts::generate_mipmaps_agrees),
        Call::CutCross => parts::cut_cross_agrees(record),
        Call::Cut => lent(record, parts::cut_agrees),
        Call::LevelView => lent(record, parts::level_view_agrees),
        Call::ComputeMipLevel => samples::compute_mip_level_agrees(record),
        Call::Sample4Rgb => lent(record, samples::sample4_rgb_agrees),
        Call::Sample4Alpha => lent(record, samples::sample4_alpha_agrees),
        Call::SampleBilinearRgb => lent(record, samples::sample_bilinear_rgb_agrees),
        Call::SampleBilinearAlpha => lent(record, samples::sample_bilinear_alpha_agrees),
        Call::CubemapUvFromNormal => samples::cubemap_uv_from_normal_agrees(record),
        Call::SampleCubemapRgb => lent(record, samples::sample_cubemap_rgb_agrees),
        Call::SampleCubemapTrilinearRgb => {
            lent(record, samples::sample_cubemap_trilinear_rgb_agrees)
        }
        Call::BuildRanges => lent(record, range_calls::build_ranges_agrees),
        Call::ReplaceTexel => lent(record, range_calls::replace_texel_agrees),
        Call::IrradianceSh4 => lent(record, light::irradiance_sh4_agrees),
        Call::CheckChain => lent(record, checks::check_chain_agrees),
        Call::CheckLevel => lent(record, checks::check_level_agrees),
    }
}
