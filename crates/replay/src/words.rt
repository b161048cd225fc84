// The list's words: 36 to a record, four bytes each, least byte first. A float stands as its bits.
ghost use Rattle.std.specs.Prelude.{◌+◌, ◌≤◌};

use std::array;

// The words of a record.
pub type Record = [u32; 36];

// The words of a record's bytes.
pub fn words(bytes: &[u8; 144]) -> Record {
    let (words, _) = bytes.as_chunks::<4>();
    array::from_fn(|i| u32::from_le_bytes(words[i]))
}

// The float of these bits. The bits of any NaN give a NaN, whichever.
fn float(bits: u32) -> f32 {
    if bits % 0x80000000 > 0x7F800000 {
        return f32::NAN;
    }
    f32::from_bits(bits)
}

// The bits of a float; of any NaN 7FC00000, which stands in no answer.
pub fn bits(x: f32) -> u32 {
    if x.is_nan() { 0x7FC00000 } else { x.to_bits() }
}

// Four words of a record, one a lane.
pub fn wholes(record: &Record, at: usize) -> [u32; 4]
    requires { at + 4 ≤ 36 }
{
    [record[at], record[at + 1], record[at + 2], record[at + 3]]
}

// Four words of a record as floats, one a lane.
pub fn lanes(record: &Record, at: usize) -> [f32; 4]
    requires { at + 4 ≤ 36 }
{
    wholes(record, at).map(float)
}
