// A TXR file: its header, why it is refused, and its level 0.
ghost use Rattle.std.specs.Prelude.{◌≡◌, ◌==◌, ◌+◌, ◌*◌, ◌≤◌, length, drop, IfOk};
ghost use Rattle.rules.specs.Refusals.{unless};
ghost use Rattle.rules.specs.Answers.{done, told};
ghost use Rattle.levels.specs.Pictures.{IsPicture};
ghost use Rattle.txr.specs.File.{marked, kind_in, width_in, height_in, header_in, header_refusal, file_refusal, file_answer};

use crate::Header;
use levels::layout::Layout;
use levels::picture::Picture;
use rules::Refusal;

// A file that is not refused: its picture, and the bytes behind the header, four for each texel of level 0.
#[derive(Clone, Copy)]
pub struct File<'a> {
    pub picture: Picture,
    pub texels: &'a [u8],
}

// A 16-bit number, little-endian.
fn word(low: u8, high: u8) -> u32
    ensures { result ≡ low + high * 256 }
{
    u32::from(u16::from_le_bytes([low, high]))
}

// Mark TXR, 16-bit version 1.
#[tactic(auto, using(crate::proofs::Files::marked_starts))]
fn marked(front: &[u8; 10]) -> bool
    ensures { result ≡ marked front.now }
{
    front.starts_with(b"TXR\x01\x00")
}

// Kind byte, 16-bit width and height.
#[tactic(auto, unfolding(crate::specs::File::word_at))]
fn header(front: &[u8; 10]) -> Header
    ensures { result ≡ header_in front.now }
{
    let [_, _, _, _, _, kind, w0, w1, h0, h1] = *front;
    Header {
        kind: u32::from(kind),
        width: word(w0, w1),
        height: word(h0, h1),
    }
}

// 12: fewer than 10 bytes, mark or version wrong. Else the header, and the bytes behind it.
#[tactic(auto, using(crate::proofs::Files::header_short, crate::proofs::Files::header_front, crate::proofs::Files::header_of), unfolding(rules::specs::Refusals::refusal_of, rules::specs::Answers::answer))]
fn split_header(input: &[u8]) -> Result<(Header, &[u8]), Refusal>
    ensures told { done result ≡ told (header_refusal input.now) }
    ensures is { IfOk result (λ p. (p.0 ≡ header_in input.now) × (p.1.now ≡ drop 10 input.now)) }
{
    let Some((front, rest)) = input.split_first_chunk::<10>() else {
        return Err(Refusal::NotTheFile);
    };
    if marked(front) {
        Ok((header(front), rest))
    } else {
        Err(Refusal::NotTheFile)
    }
}

// 12: length not exact, for so many texels.
#[tactic(auto, unfolding(rules::specs::Refusals::refusal_of, rules::specs::Answers::answer))]
fn check_length(input: &[u8], size: usize) -> Result<(), Refusal>
    requires { size ≤ 16384 }
    ensures { result ≡ told (unless (length input.now == 10 + 4 * size) 12) }
{
    if input.len() == 10 + 4 * size {
        Ok(())
    } else {
        Err(Refusal::NotTheFile)
    }
}

// 12; 1; 2; a chain above 16,384 texels, 3; 12.
#[tactic(auto, using(rules::proofs::Answering::answer_or, rules::proofs::Answering::answer_as, crate::proofs::Files::size_le_count), unfolding(rules::specs::Refusals::chain_refusal, crate::specs::File::file_refusal, crate::specs::File::length_refusal))]
pub fn file_in(input: &[u8]) -> Result<File<'_>, Refusal>
    ensures told { done result ≡ told (file_refusal input.now) }
    ensures picture { IfOk result (λ f. IsPicture (kind_in input.now) (width_in input.now) (height_in input.now) f.picture) }
    ensures texels { IfOk result (λ f. f.texels.now ≡ drop 10 input.now) }
{
    let (of, texels) = split_header(input)?;
    let picture = Picture::new(of.kind, of.width, of.height)?;
    Layout::new(picture, 16384)?;
    check_length(input, picture.level0())?;
    Ok(File { picture, texels })
}

// A file's header, or why it is refused.
#[tactic(auto, using(rules::proofs::Answering::answer_as), unfolding(crate::specs::File::file_answer))]
pub fn parse(input: &[u8]) -> Result<Header, Refusal>
    ensures answer { result ≡ file_answer input.now }
{
    let picture = file_in(input)?.picture;
    Ok(Header {
        kind: picture.kind.code(),
        width: picture.width,
        height: picture.height,
    })
}
