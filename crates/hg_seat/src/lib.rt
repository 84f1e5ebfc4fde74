//! A seat of a node between threads as a holder of `hg_gossip`: whoever has one pulls and syncs through it as with a node.
//! The layers above use `Seated`, which is made without memory; the seat comes back as one of the same node, with its parts.
//!
//! From `meet_by_seats` of `check_threads`:
//!
//! ```text
//! let mut one = Seated::new(rt, a, a_seat);
//! let mut other = Seated::new(rt, b, b_seat);
//! meet(alloc, &mut one, &mut other)
//! ```
#![tactic(auto)]

mod seated;

pub use seated::Seated;
