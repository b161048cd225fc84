// Sizes, the chain, the view, the cut and the cross, as C calls them.
ghost use Rattle.std.specs.Prelude.{◌≡◌, length};
ghost use Rattle.rules.specs.Refusals.{number_in, view_refusal};
ghost use Rattle.rules.specs.Answers.{level_sizes_answer, chain_answer, chain_leaves, cut_answer, cut_leaves, cross_answer, cross_leaves};
ghost use Rattle.station.specs.Written.{pair_of, handed, number_words, sizes_words, view_written};

use crate::written::hand_out;
use rules::Pair;

pub fn swathecold_level_sizes(
    kind: u32,
    width: u32,
    height: u32,
    level: u32,
    sizes: &mut [u64; 4],
) -> u32
    ensures number { result ≡ number_in (level_sizes_answer kind width height level) }
    ensures writes { sizes.new ≡ handed sizes_words (level_sizes_answer kind width height level) sizes.old }
{
    hand_out(texture::level_sizes(kind, width, height, level), sizes)
}

pub fn swathecold_generate_mipmaps(
    kind: u32,
    width: u32,
    height: u32,
    mode: u32,
    texels: &mut [u32],
    written: &mut u64,
) -> u32
    ensures number { result ≡ number_in (chain_answer kind width height mode texels.old) }
    ensures writes { written.new ≡ handed number_words (chain_answer kind width height mode texels.old) written.old }
    ensures leaves { texels.new ≡ chain_leaves kind width height mode texels.old }
{
    hand_out(
        texture::generate_mipmaps(kind, width, height, mode, texels),
        written,
    )
}

pub fn swathecold_cut_cross(
    width: u32,
    height: u32,
    bytes: &[u8],
    faces: &mut [u32],
    written: &mut u64,
) -> u32
    ensures number { result ≡ number_in (cross_answer width height bytes.now faces.old) }
    ensures writes { written.new ≡ handed number_words (cross_answer width height bytes.now faces.old) written.old }
    ensures leaves { faces.new ≡ cross_leaves width height bytes.now faces.old }
{
    hand_out(texture::cut_cross(width, height, bytes, faces), written)
}

pub fn swathecold_cut(
    kind: u32,
    width: u32,
    height: u32,
    source: &[u32],
    order: u32,
    corner_x: u32,
    corner_y: u32,
    cut_width: u32,
    cut_height: u32,
    target: &mut [u32],
    written: &mut u64,
) -> u32
    ensures number { result ≡ number_in (cut_answer kind width height source.now order (pair_of corner_x corner_y) (pair_of cut_width cut_height) target.old) }
    ensures writes { written.new ≡ handed number_words (cut_answer kind width height source.now order (pair_of corner_x corner_y) (pair_of cut_width cut_height) target.old) written.old }
    ensures leaves { target.new ≡ cut_leaves kind width height source.now order (pair_of corner_x corner_y) (pair_of cut_width cut_height) target.old }
{
    let corner = Pair {
        x: corner_x,
        y: corner_y,
    };
    let sides = Pair {
        x: cut_width,
        y: cut_height,
    };
    hand_out(
        texture::cut(kind, width, height, source, order, corner, sides, target),
        written,
    )
}

// The view is a place at this boundary: where the part starts, and how long it is.
pub fn swathecold_level_view(
    kind: u32,
    width: u32,
    height: u32,
    texels: &[u32],
    level: u32,
    face: u32,
    part: &mut [u64; 2],
) -> u32
    ensures number { result ≡ view_refusal kind width height (length texels.now) level face }
    ensures writes { part.new ≡ view_written kind width height (length texels.now) level face part.old }
{
    hand_out(
        texture::face_of(kind, width, height, texels, level, face),
        part,
    )
}
