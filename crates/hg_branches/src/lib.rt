//! What the rows of a graph see of each other, told by branches, which are lines of self-parents.
//! A layer above uses `BranchSight` as a graph that grows (`Growing` of `hg_model`). It may besides tell it which rows it
//! will ask of often (`mark_last`), which changes no answer.
//! The first branches are the members' own, and their numbers are the members'; the others are opened by forks. A row keeps
//! a number for each member's own branch, and for the others up to the last that it knows of; an ancestor is told by one
//! comparison.
//!
//! From `add_forked` in the tests of `check_sights`:
//!
//! ```text
//! for i in from..10 {
//!     let (creator, parents) = FORKED[i];
//!     if !both.add(parents, creator)? {
//!         return Ok(false);
//!     }
//!     if every > 0 && i % every == 0 {
//!         both.sight.mark_last();
//!     }
//! }
//! ```
#![tactic(auto)]

mod branches;
mod counts;
mod firsts;
mod forks;
mod landmarks;
mod links;
mod next_row;
mod own_counts;
mod row_tail;
mod seeing;
mod sight;
mod table;
mod tail_blocks;
mod tails;
mod tops;

pub use sight::BranchSight;
