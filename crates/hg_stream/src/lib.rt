//! What a program on a real machine is run over: the machine's files as a shelf, one of them as a disk, a standard stream
//! as a sink or as a source, and the words of its command line. First it holds the numbers of standard streams that are
//! closed, so that no file gets one. Faults are counted as the traits of hg_io ask. What a real file or stream holds no
//! clause tells; of one that tells its bytes, as one in memory does, clauses say that just what is asked for is read and
//! written, and so that no fault of a read or a write is passed over.
//!
//! From `main` of `hg_cli`, shortened:
//!
//! ```text
//! let _held = hold_streams(&rt);
//! let mut err = Stream::new(rt.stderr());
//! let mut shelf = RealShelf::new(&rt);
//! let mut disk = RealDisk::new(&rt);
//! let mut out = Stream::new(rt.stdout());
//! hashgraph(&rt, rt.alloc(), words, &mut shelf, &mut disk, &mut out, &mut err, &NoGate)
//! ```
#![tactic(auto)]

mod disk;
mod held;
mod incoming;
mod shelf;
mod stream;
mod words;

pub use disk::RealDisk;
pub use held::{HeldStreams, hold_streams};
pub use incoming::Incoming;
pub use shelf::RealShelf;
pub use stream::Stream;
pub use words::words_of;
