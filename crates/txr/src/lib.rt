// A TXR file, parsed, and its levels listed; and what the programs that list read and write.
#![tactic(auto)]

mod digits;
mod file;
mod lines;
mod listing;
mod page;
mod stream;

pub use file::parse;
pub use listing::list;
pub use stream::{read_front, write_listing};

// What the header of a file says of its picture.
#[derive(Clone, Copy)]
pub struct Header {
    // A code, and no `Kind`: a file's byte may be any, and `header_in` says which.
    pub kind: u32,
    pub width: u32,
    pub height: u32,
}
