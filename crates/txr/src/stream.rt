// What the programs read and write: files in, listings out.
ghost use Rattle.std.specs.Prelude.{◌≡◌, take, IfOk, IfSome, OnOk};
ghost use Rattle.std.specs.Io.KnownBytes.{Appends};
ghost use Rattle.txr.specs.Listing.{listing_of};

use crate::listing::listing;
use std::alloc::Global;
use std::io;
use std::io::{Read, Write};

// What a reader gives, to its end or as far as so many bytes.
pub fn read_front<R: Read + Drop>(alloc: Global, reader: R, most: u64) -> io::Result<Vec<u8>>
    ensures { IfOk result (λ front. IfSome (R.remaining reader) (λ input. front.items ≡ take most input)) }
{
    let mut front = Vec::new(alloc);
    reader.take(most).read_to_end(&mut front)?;
    Ok(front)
}

// Writes the listing of an input.
pub fn write_listing<W: Write>(input: &[u8], writer: &mut W) -> io::Result<()>
    ensures { OnOk result (Appends (W.contents writer.old) (W.contents writer.new) (listing_of input.now)) }
{
    writer.write_all(listing(input).written())
}
