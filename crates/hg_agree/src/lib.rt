//! Laws of one graph and of every longer one: rounds carry a quorum, decisions last, and all deciders agree.
//! They speak of the definitions of `hg_model`; no function computes anything, so must-fail edits change definitions.
//! The layers above use that fame, once decided, is never decided otherwise.
//!
//! From `famous_shared` in `SharedLaws.antt` of `hg_prefix`, shortened:
//!
//! ```text
//! use Rattle.hg_agree.proofs.AgreeLaws.{decider_is, deciders_agree}
//!
//! let same = deciders_agree n (links U) u.shaped u.few_forkers c (coin_at U) (place_in U G x)
//!     (place_in U G judge.0) (place_in U H other.0)
//!     judge.3.by_row other_judge.by_row judge.3.decides other_judge.decides in
//! let aye : mark_y.0 ≡ true = sym other_judge.vote ∙ (sym same ∙ judge.3.vote) in
//! ```
#![tactic(auto)]

mod laws;

pub use laws::{deciders_agree, decisions_last, late_witness_is_not_famous, rounds_carry_a_quorum};
