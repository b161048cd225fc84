// A file's levels, one line each.
ghost use Rattle.std.specs.Prelude.{◌≡◌, ◌++◌, suc, ◌+◌, ◌≤◌, length, drop, Ok};
ghost use Rattle.rules.specs.Kinds.{code_of};
ghost use Rattle.rules.specs.Sizes.{top};
ghost use Rattle.rules.specs.Answers.{answer, refused};
ghost use Rattle.txr.specs.File.{file_refusal};
ghost use Rattle.txr.specs.Listing.{level_line, level_lines, file_lines, listing_of};

use crate::file::file_in;
use crate::page::Page;
use levels::bytes::put_bytes;
use levels::chain::generate_mipmaps;
use levels::lent::Chain;
use levels::level::PictureLevel;
use levels::picture::Picture;
use rules::Refusal;

// The line of level m. A number, and no `PictureLevel`: that carries a picture of its own, and this would ask that it is the chain's.
#[tactic(auto, using(crate::proofs::Listings::levels_within), unfolding(crate::specs::Listing::level_line))]
fn level_line(chain: Chain, m: u32, page: &mut Page)
    requires level { m ≤ top chain.picture.width chain.picture.height }
    requires page { length page.old + 24 ≤ 512 }
    ensures { page.new ≡ page.old ++ level_line (code_of chain.entry.picture.kind) chain.entry.picture.width chain.entry.picture.height chain.entry.texels.now m }
{
    let level = PictureLevel {
        picture: chain.picture,
        number: m,
    };
    let first = chain.texels[level.start()];
    page.line(m, level.width(), level.height(), first);
}

// One line a level.
#[tactic(auto, unfolding(crate::specs::Listing::level_lines))]
fn level_lines(chain: Chain) -> Page
    ensures { result ≡ level_lines (code_of chain.entry.picture.kind) chain.entry.picture.width chain.entry.picture.height chain.entry.texels.now (suc (top chain.entry.picture.width chain.entry.picture.height)) }
{
    let mut page = Page::new();
    for m in 0..=chain.picture.top_level() {
        level_line(chain, m, &mut page);
    }
    page
}

// The levels of a file: its chain is made, truncating, and listed.
#[tactic(auto, using(rules::proofs::Answering::answer_as))]
fn list_levels(input: &[u8]) -> Result<Page, Refusal>
    ensures { result ≡ answer (file_refusal input.now) refused (Ok (file_lines input.now)) }
{
    let file = file_in(input)?;
    let picture = file.picture;
    let Picture {
        kind,
        width,
        height,
    } = picture;
    let mut texels = [0u32; 16384];
    put_bytes(file.texels, &mut texels[..picture.level0()]);
    generate_mipmaps(kind.code(), width, height, 0, &mut texels)?;
    Ok(level_lines(Chain {
        picture,
        texels: &texels,
    }))
}

// What the listing program writes for what it read.
#[tactic(auto, using(crate::proofs::Listings::listed))]
pub fn listing(input: &[u8]) -> Page
    ensures { result ≡ listing_of input.now }
{
    match list_levels(input) {
        Ok(page) => page,
        Err(refusal) => Page::refused(refusal.number()),
    }
}

// The same at the front of `out`. Answers how many bytes that is: so it has promised, where a part of `out` would do.
pub fn list(input: &[u8], out: &mut [u8; 512]) -> usize
    ensures answer { result ≡ length (listing_of input.now) }
    ensures leaves { out.new ≡ listing_of input.now ++ drop result out.old }
{
    let page = listing(input);
    let written = page.written();
    out[..written.len()].copy_from_slice(written);
    written.len()
}
