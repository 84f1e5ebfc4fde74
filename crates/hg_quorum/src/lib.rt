//! Laws of one graph: what forks cannot do to strongly seeing, and what two quorums share.
//! They speak of the definitions of `hg_model`; no function computes anything, so must-fail edits change definitions.
//! The layers above use that of the two rows of a fork at most one is strongly seen, and weights of several sets.
//!
//! From `one_witness_seen` in `WitnessLaws.antt` of `hg_agree`, shortened:
//!
//! ```text
//! use Rattle.hg_quorum.proofs.ForkSightLaws.{fork_seen_once}
//!
//! absurd (fork_seen_once n L s few (creator L b) a b x y hx hy
//!     (is_fork_from L (creator L b) a b fork) seen_a.seen seen_b.seen)
//! ```
#![tactic(auto)]

mod laws;

pub use laws::{
    fork_is_seen_once, quorums_share_a_member_without_fork, report_is_kept, sight_grows,
};
