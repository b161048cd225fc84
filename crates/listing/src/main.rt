// The listing program: reads a TXR file from standard input and writes a line for each of its levels, or why it is refused.
#![tactic(auto)]

ghost use Rattle.std.specs.Prelude.{IfSome, OnOk};
ghost use Rattle.std.specs.Io.KnownBytes.{Appends};
ghost use Rattle.txr.specs.Listing.{listing_of};

use std::alloc::Global;
use std::io;
use std::io::{Read, Write};
use txr::{read_front, write_listing};

// No more bytes are read: one more than any file that is not refused.
const MOST: u64 = 65547;

// Writes the listing of what there is to read, however long.
#[tactic(auto, using(txr::proofs::Reading::reading))]
fn list<R: Read + Drop, W: Write>(alloc: Global, reader: R, writer: &mut W) -> io::Result<()>
    ensures { OnOk result (IfSome (R.remaining reader) (λ file. Appends (W.contents writer.old) (W.contents writer.new) (listing_of file))) }
{
    let input = read_front(alloc, reader, MOST)?;
    write_listing(&input, writer)
}

fn main(rt: HostRuntime) -> io::Result<()> {
    list(rt.alloc(), rt.reader(), &mut io::writer(&rt))
}
