//! The work of the commands `prove` and `check`: the certificate of the order of a member's node after the play of a script,
//! and what a file shows as a certificate to the members, who check signatures by their secrets.
//! The layer above uses `prove_order`, `read_certificate`, which answers what is shown or the first reason against it, and
//! `write_shown` and `why_pieces`, which print either.
//!
//! From `proof_from` of `hg_top`:
//!
//! ```text
//! match read_certificate(alloc, members, bytes.as_slice()) {
//!     Err(Memory) => Err(Status::Memory),
//!     Ok(Err(why)) => Err(Status::Proof(Refusal::Fault(why))),
//!     Ok(Ok(shown)) => Ok(shown),
//! }
//! ```
#![tactic(auto)]

mod printing;
mod proving;
mod showing;

pub use hg_proof::{Shown, Why};
pub use printing::{why_pieces, write_shown};
pub use proving::prove_order;
pub use showing::read_certificate;
