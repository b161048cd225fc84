// Replays the stored list of answers on the unit and writes how many agree. bindings/compare/ANSWERS.md describes the list.
// Kinds, modes and refusals are numbers here: the list is of calls of the C interface, which has them so.
#![tactic(auto)]

mod answers;
mod asks;
mod checks;
mod light;
mod parts;
mod range_calls;
mod samples;
mod stream;
mod words;

ghost use Rattle.std.specs.Prelude.{◌≤◌, IfOk};

use std::io::{ErrorKind, Read, Write};
use std::{fs, io};
use words::Record;

// Reads the next record, or the head, which is as long; none where the list ends.
fn read_record<R: Read>(reader: &mut R) -> io::Result<Option<Record>> {
    let mut bytes = [0u8; 144];
    match reader.read_exact(&mut bytes) {
        Ok(()) => Ok(Some(words::words(&bytes))),
        Err(e) if e.kind() == ErrorKind::UnexpectedEof => Ok(None),
        Err(e) => Err(e),
    }
}

// Whether the unit answers as a record says. The first eight records of which it does not are named.
fn agreed_one<W: Write>(
    record: &Record,
    number: u32,
    wrong: u32,
    writer: &mut W,
) -> io::Result<bool> {
    let agreed = asks::record_agrees(record);
    if !agreed && wrong < 8 {
        write!(writer, "record {number} does not agree\n")?;
    }
    Ok(agreed)
}

// Replays so many records, or as many as there are, and answers how many agree.
fn replay<R: Read, W: Write>(reader: &mut R, count: u32, writer: &mut W) -> io::Result<u32>
    ensures { IfOk result (λ agreed. agreed ≤ count) }
{
    let mut agreed = 0u32;
    for number in 0..count {
        let Some(record) = read_record(reader)? else {
            break;
        };
        agreed += u32::from(agreed_one(&record, number, number - agreed, writer)?);
    }
    Ok(agreed)
}

// Replays a list that is open, where its head is one: the mark SWAN, version 1, 36 words a record.
fn replay_list<R: Read, W: Write>(reader: &mut R, writer: &mut W) -> io::Result<()> {
    match read_record(reader)? {
        Some(head) if head[0] == 0x4E415753 && head[1] == 1 && head[3] == 36 => {
            let agreed = replay(reader, head[2], writer)?;
            let count = head[2];
            write!(writer, "{agreed} of {count} agree\n")
        }
        _ => writer.write_all(b"not a list of answers\n"),
    }
}

fn main(rt: HostRuntime) -> io::Result<()> {
    let mut list = fs::open(&rt, "answers.bin")?;
    replay_list(&mut list, &mut io::writer(&rt))
}
