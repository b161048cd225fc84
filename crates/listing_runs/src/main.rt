// Lists many inputs: each stands in standard input behind its length, two bytes little-endian.
// tools/listing_runs.py makes the stored stdin and stdout, the answers from document 01's text alone.
#![tactic(auto)]

ghost use Rattle.std.specs.Prelude.{take, IfSome, OnOk};
ghost use Rattle.std.specs.Io.KnownBytes.{Appends};
ghost use Rattle.listing_runs.specs.Runs.{listings_of};

use std::alloc::Global;
use std::io;
use std::io::{Read, Write};
use txr::{read_front, write_listing};

// No more bytes are read.
const MOST: u64 = 65536;

// The listings of all, one after the other.
fn show_all<W: Write>(runs: &[u8], writer: &mut W) -> io::Result<()>
    ensures { OnOk result (Appends (W.contents writer.old) (W.contents writer.new) (listings_of runs.now)) }
{
    // A while: each input's length says where the next one starts.
    let mut rest = runs;
    while let Some((length, behind)) = rest.split_first_chunk::<2>() {
        let size = usize::from(u16::from_le_bytes(*length));
        let (input, next) = behind.split_at(size.min(behind.len()));
        write_listing(input, writer)?;
        rest = next;
    }
    Ok(())
}

// Writes the listings of all that it reads.
fn list_all<R: Read + Drop, W: Write>(alloc: Global, reader: R, writer: &mut W) -> io::Result<()>
    ensures { OnOk result (IfSome (R.remaining reader) (λ input. Appends (W.contents writer.old) (W.contents writer.new) (listings_of (take 65536 input)))) }
{
    let runs = read_front(alloc, reader, MOST)?;
    show_all(&runs, writer)
}

fn main(rt: HostRuntime) -> io::Result<()> {
    list_all(rt.alloc(), rt.reader(), &mut io::writer(&rt))
}
