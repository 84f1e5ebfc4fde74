//! All members' nodes between threads: in a `storm` each takes its turns in a thread of its own. A turn takes what its
//! mailbox has (`receive`), makes an event, draws another member, and sends it, in order, the rows that it was not sent
//! yet, until its mailbox is full (`send_rows`). After the joins the nodes are a world again, pull, and settle.
//! The layers above use `IsStorm`: by the names of rows, what each member sent each other, and what each took and refused; how
//! many turns made nothing; that each turn took all that its mailbox had been given when the turn collected, or as many as it
//! has room for, as the mailbox's port has counted; and the world after these pulls. Of one node they use `HasFates`: each message that was taken is held, or was refused by what the node held at
//! a moment that is told (`RefusedMessage`), and each change made through the seat is a row made, or that of a message; what
//! leaves it so (`calls_keep_fates`); and that it is so of the node's whole history, once others only marked (`fates_last`).
//!
//! From `storm` of `hg_storm`, shortened:
//!
//! ```text
//! let begun = World::new(alloc, members)?;
//! let first = begun.into_nodes();
//! let joined = run_threads(rt, alloc, first, &plan, room, crew, gate)?;
//! ...
//! gather(&mut world, plan.circle.as_slice())?;
//! ```
#![tactic(auto)]

mod closing;
mod desk;
mod drawing;
mod gathering;
mod joining;
mod laws;
mod mails;
mod opening;
mod outcome;
mod plan;
mod receiving;
mod refusals;
mod sending;
mod storming;
mod taking;
mod threads;
mod turning;

pub use desk::{Desk, Job, Log};
pub use laws::{calls_keep_fates, fates_last};
pub use mails::Mail;
pub use outcome::Storm;
pub use plan::Plan;
pub use receiving::receive;
pub use refusals::Refusal;
pub use sending::{Dispatch, send_rows};
pub use storming::storm;
pub use taking::{Intake, RefusedMessage, take_all};
pub use threads::{Joined, run_threads};
