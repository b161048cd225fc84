// The calls on sizes, the chain, the cross, the cut and the view: each asked as a record says, and its answer compared.
use crate::answers::{agrees, count, filled_agrees};
use crate::stream::{BEFORE, with_bytes, with_texels};
use crate::words::Record;
use station::parts;

// Call 0.
pub fn level_sizes_agrees(record: &Record) -> bool {
    let [_, _, kind, width, height, _, level, ..] = *record;
    let mut sizes = [0u64; 4];
    let refusal = parts::swathecold_level_sizes(kind, width, height, level, &mut sizes);
    agrees(record, refusal, &sizes.map(count), 0)
}

// Call 1; its mode is the last of the words for arguments.
pub fn generate_mipmaps_agrees(record: &Record, texels: &mut [u32]) -> bool {
    let [_, _, kind, width, height, ..] = *record;
    filled_agrees(record, texels, |chain: &mut [u32], written: &mut u64| {
        parts::swathecold_generate_mipmaps(kind, width, height, record[21], chain, written)
    })
}

// Call 2.
pub fn cut_cross_agrees(record: &Record) -> bool {
    let [_, _, _, width, height, read, written, ..] = *record;
    with_bytes(record, read, |cross: &mut [u8]| {
        with_texels(BEFORE, written, |faces: &mut [u32]| {
            filled_agrees(record, faces, |faces: &mut [u32], written: &mut u64| {
                parts::swathecold_cut_cross(width, height, cross, faces, written)
            })
        })
    })
}

// Call 3.
pub fn cut_agrees(record: &Record, source: &mut [u32]) -> bool {
    let [_, _, kind, width, height, _, order, x, y, w, h, len, ..] = *record;
    with_texels(BEFORE, len, |target: &mut [u32]| {
        filled_agrees(record, target, |target: &mut [u32], written: &mut u64| {
            parts::swathecold_cut(
                kind, width, height, source, order, x, y, w, h, target, written,
            )
        })
    })
}

// Call 4.
pub fn level_view_agrees(record: &Record, texels: &mut [u32]) -> bool {
    let [_, _, kind, width, height, _, level, face, ..] = *record;
    let mut part = [0u64; 2];
    let refusal = parts::swathecold_level_view(kind, width, height, texels, level, face, &mut part);
    agrees(record, refusal, &part.map(count), 0)
}
