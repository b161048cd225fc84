// The calls on ranges: each asked as a record says, and its answer compared.
use crate::answers::{agrees, filled_agrees};
use crate::stream::{sum_of, with_bytes};
use crate::words::Record;
use station::beside;

// Call 13.
pub fn build_ranges_agrees(record: &Record, texels: &mut [u32]) -> bool {
    let [_, _, kind, width, height, _, len, ..] = *record;
    with_bytes(record, len, |ranges: &mut [u8]| {
        filled_agrees(record, ranges, |ranges: &mut [u8], written: &mut u64| {
            beside::swathecold_build_ranges(kind, width, height, texels, ranges, written)
        })
    })
}

// Call 14. It answers no more than its refusal: the sum over the ranges stands in word 23.
pub fn replace_texel_agrees(record: &Record, texels: &mut [u32]) -> bool {
    let [_, _, kind, width, height, _, len, x, y, texel, ..] = *record;
    with_bytes(record, len, |ranges: &mut [u8]| {
        let refusal = beside::swathecold_replace_texel(
            kind, width, height, texels, ranges, x, y, texel,
        );
        agrees(record, refusal, &[sum_of(ranges)], sum_of(texels))
    })
}
