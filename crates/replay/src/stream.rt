// What the buffers hold before a call, by a record's seed, and the sum over a buffer after it.
ghost use Rattle.std.specs.Prelude.{◌<◌};

use crate::words::Record;

// The texels or bytes of the longest buffer of the list.
const ROOM: usize = 8192;

// What a buffer that is only written holds before.
pub const BEFORE: u32 = 0xC5C55C5C;

// The numbers of a seed.
#[derive(Drop)]
struct Stream {
    last: u64,
    ghost small: { last < 4294967296 },
}

impl Stream {
    fn of(seed: u32) -> Self {
        Stream { last: seed as u64 }
    }

    // The next number: 48271 times the last one, modulo 2^31 - 1.
    fn number(&mut self) -> u64 {
        self.last = self.last * 48271 % 2147483647;
        self.last
    }

    // A texel of two numbers, the first above.
    fn texel(&mut self) -> u32 {
        let above = self.number() % 65536;
        let below = self.number() % 65536;
        (above * 65536 + below) as u32
    }

    fn byte(&mut self) -> u8 {
        (self.number() % 256) as u8
    }
}

// Copies as many as there are in both.
fn copy_texels(words: &[u32], texels: &mut [u32]) {
    let n = words.len().min(texels.len());
    texels[..n].copy_from_slice(&words[..n]);
}

// Fills with the texels of a seed.
fn draw_texels(seed: u32, texels: &mut [u32]) {
    let mut stream = Stream::of(seed);
    for texel in texels {
        *texel = stream.texel();
    }
}

// Fills the buffer that a record's call is lent, which is 0 before. Seed 0: its texels stand in the record, in words 6 to 21.
pub fn fill_texels(record: &Record, texels: &mut [u32]) {
    if record[1] == 0 {
        copy_texels(&record[6..22], texels);
    } else {
        draw_texels(record[1], texels);
    }
}

// Fills a cross or ranges.
fn fill_bytes(record: &Record, bytes: &mut [u8]) {
    let mut stream = Stream::of(record[1]);
    for byte in bytes {
        *byte = stream.byte();
    }
}

// A call over so many texels, each `before`. A buffer that is longer than any of the list agrees with nothing.
pub fn with_texels<F: FnOnce(&mut [u32]) -> bool>(before: u32, size: u32, call: F) -> bool
    requires { F.IsAlwaysCallable call }
{
    let mut room = [before; ROOM];
    match room.get_mut(..size as usize) {
        Some(texels) => call(texels),
        None => false,
    }
}

// The same over bytes of the record's seed. Two functions: of a type parameter it is not known that ROOM of them fit in memory.
pub fn with_bytes<F: FnOnce(&mut [u8]) -> bool>(record: &Record, size: u32, call: F) -> bool
    requires { F.IsAlwaysCallable call }
{
    let mut room = [0u8; ROOM];
    match room.get_mut(..size as usize) {
        Some(bytes) => {
            fill_bytes(record, bytes);
            call(bytes)
        }
        None => false,
    }
}

// The sum over a whole buffer, from 1: with each texel or byte 65599 times the sum, and it, modulo 2^32 - 5.
pub fn sum_of<T: Copy + Into<u32>>(buffer: &[T]) -> u32 {
    let mut sum = 1u32;
    for item in buffer {
        let item: u32 = (*item).into();
        sum = ((sum as u64 * 65599 + item as u64) % 4294967291) as u32;
    }
    sum
}
