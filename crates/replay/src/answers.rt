// An answer as the list has it: the refusal in word 22, twelve words from 23 on, the sum over the written buffer in word 35.
ghost use Rattle.std.specs.Prelude.{◌≤◌, length};

use crate::stream::sum_of;
use crate::words::Record;

// A count as a word; one that is too large for a word is FFFFFFFF, which stands in no answer.
pub fn count(n: u64) -> u32 {
    u32::try_from(n).unwrap_or(u32::MAX)
}

// Whether the record has this answer: these words in front, and 0 in the rest of the twelve.
pub fn agrees(record: &Record, refusal: u32, words: &[u32], sum: u32) -> bool
    requires { length words.now ≤ 12 }
{
    let (front, rest) = record[23..35].split_at(words.len());
    record[22] == refusal
        && front == words
        && rest.iter().all(|word| *word == 0)
        && record[35] == sum
}

// Whether the record has the answer of a call that fills a buffer: the texels or bytes written.
pub fn filled_agrees<T: Copy + Into<u32>, F: FnOnce(&mut [T], &mut u64) -> u32>(
    record: &Record,
    buffer: &mut [T],
    call: F,
) -> bool
    requires { F.IsAlwaysCallable call }
{
    let mut written = 0u64;
    let refusal = call(buffer, &mut written);
    agrees(record, refusal, &[count(written)], sum_of(buffer))
}
