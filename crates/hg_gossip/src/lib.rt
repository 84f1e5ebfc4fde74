//! Gossip: who holds a node takes from another what the node lacks (`pull`), and then makes an event on it (`sync`).
//! The layers above use that the peer's rows whose names the taker lacks are put, in the peer's order, each at what was
//! reached then, for others may change a shared node. Each row of the peer is held then by its name, or was refused at its
//! turn (`pulling_holds`); of a `Node` alone `pulling_alone` and `syncing_alone` tell all.
//! Each half stands by itself, on one node at a time: what a peer hands over (`held` and `missing`, `tips` and `beyond`, or
//! `lacked` between two nodes at hand), taking it (`take`, `take_events`), and the event that is made then (`make_after`).
//!
//! From `meet` in the tests of `check_calls`:
//!
//! ```text
//! /// Both learn what the other has, and each adds an event on the other's last one. Whether B did.
//! fn meet<V: Signer>(alloc: Global, a: &mut Node<V>, b: &mut Node<V>, now: u64) -> Result<bool, Memory> {
//!     sync(alloc, a, b, now, b"")?;
//!     let report = sync(alloc, b, a, now, b"")?;
//!     Ok(match report.made {
//!         SyncMade::Row(_) => true,
//!         SyncMade::PeerBare | SyncMade::Fault(_) => false,
//!     })
//! }
//! ```
#![tactic(auto)]

mod gossip;
mod handing;
mod holder;
mod known;
mod laws;
mod node;
mod taking;

pub use gossip::{Taken, pull, sync, sync_made, with_answer};
pub use handing::{Heard, joined, lacked, still_lacked};
pub use holder::Holder;
pub use known::Known;
pub use laws::{
    known_for_good, making_alone, missing_is_lacking, pulling_alone, pulling_holds, syncing_alone,
    taking_beyond_holds, taking_holds, waiting_alone,
};
pub use taking::{make_after, take, take_events};
