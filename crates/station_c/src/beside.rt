// The ranges beside a picture, exported.
ghost use Rattle.std.specs.Prelude.{◌≡◌, length};
ghost use Rattle.rules.specs.Refusals.{number_in, replace_refusal};
ghost use Rattle.rules.specs.Answers.{ranges_answer, ranges_leaves, replace_leaves, replace_ranges_leaves};
ghost use Rattle.station.specs.Written.{handed, number_words};

#[unsafe(no_mangle)]
pub extern "C" fn swathecold_build_ranges(
    kind: u32,
    width: u32,
    height: u32,
    texels: &[u32],
    ranges: &mut [u8],
    written: &mut u64,
) -> u32
    ensures number { result ≡ number_in (ranges_answer kind width height texels.now ranges.old) }
    ensures writes { written.new ≡ handed number_words (ranges_answer kind width height texels.now ranges.old) written.old }
    ensures leaves { ranges.new ≡ ranges_leaves kind width height texels.now ranges.old }
{
    station::beside::swathecold_build_ranges(kind, width, height, texels, ranges, written)
}

#[unsafe(no_mangle)]
pub extern "C" fn swathecold_replace_texel(
    kind: u32,
    width: u32,
    height: u32,
    texels: &mut [u32],
    ranges: &mut [u8],
    x: u32,
    y: u32,
    texel: u32,
) -> u32
    ensures number { result ≡ replace_refusal kind width height (length texels.old) (length ranges.old) x y }
    ensures texels { texels.new ≡ replace_leaves kind width height texels.old ranges.old x y texel }
    ensures ranges { ranges.new ≡ replace_ranges_leaves kind width height texels.old ranges.old x y texel }
{
    station::beside::swathecold_replace_texel(kind, width, height, texels, ranges, x, y, texel)
}
