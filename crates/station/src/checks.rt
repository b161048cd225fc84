// The check of another tool's chain, as C calls it: of all its levels, and of one.
ghost use Rattle.std.specs.Prelude.{◌≡◌};
ghost use Rattle.rules.specs.Refusals.{number_in};
ghost use Rattle.rules.specs.Answers.{check_chain_answer, check_level_answer};
ghost use Rattle.station.specs.Written.{handed, verdict_words};

use crate::written::hand_out;

pub fn swathecold_check_chain(
    kind: u32,
    width: u32,
    height: u32,
    mode: u32,
    texels: &[u32],
    verdict: &mut [u64; 2],
) -> u32
    ensures number { result ≡ number_in (check_chain_answer kind width height mode texels.now) }
    ensures writes { verdict.new ≡ handed verdict_words (check_chain_answer kind width height mode texels.now) verdict.old }
{
    hand_out(
        texture::check_chain(kind, width, height, mode, texels),
        verdict,
    )
}

pub fn swathecold_check_level(
    kind: u32,
    width: u32,
    height: u32,
    mode: u32,
    texels: &[u32],
    level: u32,
    verdict: &mut [u64; 2],
) -> u32
    ensures number { result ≡ number_in (check_level_answer kind width height mode texels.now level) }
    ensures writes { verdict.new ≡ handed verdict_words (check_level_answer kind width height mode texels.now level) verdict.old }
{
    hand_out(
        texture::check_level(kind, width, height, mode, texels, level),
        verdict,
    )
}
