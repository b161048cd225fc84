// The checks of a chain: the chain that a record describes is judged, and the answer compared.
use crate::answers::{agrees, count};
use crate::words::Record;
use station::{checks, parts};

// The levels of the chain that is lent: as the stream has them, or made by the chain call where word 7 is a mode and 1.
fn make_levels(record: &Record, texels: &mut [u32]) {
    if let Some(mode) = record[7].checked_sub(1) {
        let mut written = 0u64;
        let _ = parts::swathecold_generate_mipmaps(
            record[2],
            record[3],
            record[4],
            mode,
            texels,
            &mut written,
        );
    }
}

// One texel of it, that of word 9, at the place of word 8 where the buffer has one.
fn change_texel(record: &Record, texels: &mut [u32]) {
    if let Some(texel) = texels.get_mut(record[8] as usize) {
        *texel = record[9];
    }
}

// Whether the record has the verdict of this check of the chain that it describes.
fn verdict_agrees<F: FnOnce(&[u32], &mut [u64; 2]) -> u32>(
    record: &Record,
    texels: &mut [u32],
    check: F,
) -> bool
    requires { F.IsAlwaysCallable check }
{
    make_levels(record, texels);
    change_texel(record, texels);
    let mut verdict = [0u64; 2];
    let refusal = check(texels, &mut verdict);
    agrees(record, refusal, &verdict.map(count), 0)
}

// Call 16.
pub fn check_chain_agrees(record: &Record, texels: &mut [u32]) -> bool {
    let [_, _, kind, width, height, ..] = *record;
    verdict_agrees(record, texels, |chain: &[u32], verdict: &mut [u64; 2]| {
        checks::swathecold_check_chain(kind, width, height, record[21], chain, verdict)
    })
}

// Call 17.
pub fn check_level_agrees(record: &Record, texels: &mut [u32]) -> bool {
    let [_, _, kind, width, height, _, level, ..] = *record;
    verdict_agrees(record, texels, |chain: &[u32], verdict: &mut [u64; 2]| {
        checks::swathecold_check_level(kind, width, height, record[21], chain, level, verdict)
    })
}
