//! What a node's life is: bytes of events and their signatures, what a node answers to them, its history, the order that it
//! keeps, gossip, the members, and what their events pay. `specs/` is the text that a reader must believe, over the graphs of
//! `hg_model`.
//! The layers above use the types below, the words of `specs/` and the lemmas of `proofs/`.
//!
//! From `signature_rule` of `hg_arrival`, in the words of this crate:
//!
//! ```text
//! pub fn signature_rule<V: Verifier>(keys: &V, view: &EventView<'_>) -> Result<(), PutAnswer>
//!     ensures { result_err result ≡ signature_rule (V.accepts keys.now) (row_of view.now) }
//! {
//!     if keys.check(view.creator, body_of(view), view.sig) {
//!         Ok(())
//!     } else {
//!         Err(PutAnswer::Refused(Fault::Signature))
//!     }
//! }
//! ```
#![tactic(auto)]

mod answers;
mod entry;
mod gossip;
mod lawful;
mod members;
mod names;
mod pay;

pub use answers::{ByteFault, Fault, MakeAnswer, MakeFault, PutAnswer, SyncMade, SyncReport};
pub use entry::Entry;
pub use gossip::Parcel;
pub use lawful::has_name;
pub use members::{MemberEntry, Members};
pub use names::is_member_name;
pub use pay::{Effect, Transfer};
