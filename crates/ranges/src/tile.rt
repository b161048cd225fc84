// One tile of a picture's level 0: its texels are cut out of it, scanned, and their range stored.
ghost use Rattle.std.specs.Prelude.{◌≡◌, ◌*◌, ◌≤◌, length};
ghost use Rattle.std.proofs.lemmas.List.Edits.{sets};
ghost use Rattle.rules.specs.Ranges.{tiles, tile_side, tile, range_of, ranges_size, range_start};
ghost use Rattle.rules.proofs.Tiles.{TileAt};
ghost use Rattle.ranges.specs.Scans.{RangeIs};

use crate::level0::Level0;
use crate::scan::{Range, scan};
use rules::Pair;
use texture::cut;

// Tiles of 16 along a side, the last one smaller.
pub fn tiles(side: u32) -> u32
    ensures { result ≡ tiles side }
{
    side.div_ceil(16)
}

// How many bytes the ranges take.
#[tactic(auto, unfolding(rules::specs::Ranges::ranges_size))]
pub fn ranges_size(width: u32, height: u32) -> usize
    requires { (width ≤ 4096) × (height ≤ 4096) }
    ensures { result ≡ ranges_size width height }
{
    8 * ((tiles(height) as usize) * (tiles(width) as usize))
}

// The texels of tile i along a side.
fn tile_side(side: u32, i: u32) -> u32
    requires { 16 * i ≤ side }
    ensures { result ≡ tile_side side i }
{
    u32::min(16, side - 16 * i)
}

impl Level0<'_> {
    // The range of the tile in column i and row j, which is cut out for it.
    fn tile_range(self, i: u32, j: u32) -> Range
        requires { TileAt self.width self.height i j }
        ensures { RangeIs (tile self.entry.width self.entry.height self.entry.texels.now i j) result }
    {
        let mut part = [0u32; 256];
        let corner = Pair {
            x: 16 * i,
            y: 16 * j,
        };
        let sides = Pair {
            x: tile_side(self.width, i),
            y: tile_side(self.height, j),
        };
        // Never refused: the tile lies in the picture.
        let _ = cut(
            self.kind,
            self.width,
            self.height,
            self.texels,
            0,
            corner,
            sides,
            &mut part,
        );
        let n = (sides.y as usize) * (sides.x as usize);
        scan(&part[..n])
    }

    // Works out the range of the tile in column i and row j and stores it in its place.
    // The room stands in two contracts: a value that held the lent ranges would have to say in each besides that its level stays.
    pub fn write_tile(self, i: u32, j: u32, ranges: &mut [u8])
        requires room { ranges_size self.width self.height ≤ length ranges.old }
        requires tile_at { TileAt self.width self.height i j }
        ensures { ranges.new ≡ sets ranges.old (range_start self.entry.width i j) (range_of (tile self.entry.width self.entry.height self.entry.texels.now i j)) }
    {
        let range = self.tile_range(i, j);
        let at = 8 * ((j as usize) * (tiles(self.width) as usize) + (i as usize));
        ranges[at..at + 8].copy_from_slice(&range.bytes());
    }
}
