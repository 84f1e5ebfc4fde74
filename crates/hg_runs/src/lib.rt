//! Laws of runs: several nodes, each with its history, of members that may cheat. Must-fail edits change definitions.
//! Each law is the contract of a function without a body. The layers above use `runs_are_safe`: if the dishonest have
//! less than a third of the stake and names do not collide, of any two nodes' orders one is a prefix of the other.
//! So of the order of a graph that a certificate shows and any node's: `further_graphs_agree`.
//!
//! From `safe` in `WorldLaws.antt` of `hg_world`, shortened:
//!
//! ```text
//! use Rattle.hg_runs.proofs.SafetyLaws.{runs_safe}
//!
//! safe : (w : WorldView) → IsWorld w → IsSafe w.members w.coin (run_of w)
//! safe w is = runs_safe (λ m. terms_of accepts_by (node_at w m).start) w.members w.coin (run_of w) (record {
//!   coin = is.coin;
//!   histories = ...
//! })
//! ```
#![tactic(auto)]

mod laws;

pub use laws::{further_graphs_agree, honesty_is_tested, runs_are_safe, unions_are_graphs};
