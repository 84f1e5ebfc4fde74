//! Rows of bits by words of 64, sets of members as masks and what they weigh, and kernels over rows of numbers.
//! The layers above see a `BitRow` as the list of its truth values, and a mask by the members that it has.
//! A row keeps no bit past its end, so that whole words can be compared.
//!
//! From `add_parents` and then `fill` of `hg_ancestry`, shortened:
//!
//! ```text
//! row.union(sight.ancestors_of(self_place));
//! ...
//! forked = join_masks(forked, forks_with(sight, row, *other, by));
//! row.union(sight.ancestors_of(*other));
//!
//! row.set(sight.rows());
//! ```
#![tactic(auto)]

pub mod kernels;
mod masks;
mod row;
mod stakes;
mod words;

pub use masks::{join_masks, mask_has, meet_masks, with_member};
pub use row::BitRow;
pub use stakes::{StakeTable, stake_over, sum_stakes, weigh_mask};
pub use words::{has_bit, set_bit};
