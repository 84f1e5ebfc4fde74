//! The outside of the program: shelves of files, sinks and sources of bytes, disks, and gates, as traits, with forms of
//! them in memory. What a shelf holds, a source has left, a sink was given and a stop may leave on a disk are members that
//! only clauses see, told by some; every fault has a count.
//! The layer above uses `read_file`, `write_all`, `read_all` and `put_down`: all of a file, all of the bytes, or a fault
//! whose count rose; those that give bytes may besides want memory, or find a file longer than they may take.
//!
//! From `bytes_from` of `hg_top`:
//!
//! ```text
//! match read_file(alloc, shelf, name, file.limit()) {
//!     Err(Memory) => Err(Status::Memory),
//!     Ok(FileAnswer::Failed) => Err(Status::ReadFault(file)),
//!     Ok(FileAnswer::TooLong(_)) => Err(file.too_long()),
//!     Ok(FileAnswer::Bytes(bytes)) => Ok(bytes),
//! }
//! ```
#![tactic(auto)]

mod disk;
mod disk_mem;
mod disk_reading;
mod failed;
mod gate;
mod page;
mod putting;
mod reading;
mod shelf;
mod shelf_mem;
mod sink;
mod sink_mem;
mod source;
mod source_mem;
mod started;
mod writing;

pub use disk::Disk;
pub use disk_mem::DiskMem;
pub use disk_reading::read_all;
pub use failed::Failed;
pub use gate::{Gate, NoGate};
pub use page::Page;
pub use putting::put_down;
pub use reading::{FileAnswer, read_file};
pub use shelf::Shelf;
pub use shelf_mem::ShelfMem;
pub use sink::Sink;
pub use sink_mem::SinkMem;
pub use source::Source;
pub use source_mem::SourceMem;
pub use started::Started;
pub use writing::write_all;
