//! The program in one call: words, files, nodes, and then a report, a certificate, what one shows, the blocks after a storm, or
//! a message of an exchange; and a node that is kept on a disk.
//! `main` uses `hashgraph`, whose clauses say what it writes for which files, and the cause of each status.
//! What the script does is `hg_play`'s; what is written `report_text`, `summary_text` and `status_line` tell.
//! A command is a work, a value of `specs/Work.antt`: it reads files and then writes a text, works on a node, or stops.
//! `specs/Commands.antt` has the work of each, and `specs/Ends.antt` says once what a work comes to, with `specs/Keeps.antt`
//! for the work on a node.
//!
//! From `main` of `hg_cli`, shortened:
//!
//! ```text
//! let mut shelf = RealShelf::new(&rt);
//! let mut disk = RealDisk::new(&rt);
//! let mut out = Stream::new(rt.stdout());
//! let words = words.as_slice();
//! hashgraph(&rt, rt.alloc(), words, &mut shelf, &mut disk, &mut out, &mut err, &NoGate)
//! ```
#![tactic(auto)]

mod exchanging;
mod keeping;
mod printing;
mod proving;
mod reading;
mod status;
mod storming;
mod top;

pub use printing::{report_status, without_words};
pub use reading::{members_from, own_in};
pub use status::{File, JournalFault, NoWords, Refusal, Status, status_of};
pub use top::hashgraph;
