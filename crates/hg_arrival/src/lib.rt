//! The rules of putting, of any graph: what speaks against an event that comes to it, at a member's node or at none.
//! The layers above use that the answer is that of the first rule that speaks, and that without one the places of the event's
//! parents are told, with which the graph takes it. How many rows there may be is a rule of the node.
//!
//! From `parents_of_put` of `hg_node`, shortened:
//!
//! ```text
//! let parents = parents_of_arrival(keys, graph, Some(chronicle.own()), view, name, bytes)?;
//! full_rule(chronicle)?;
//! Ok(parents)
//! ```
#![tactic(auto)]

mod arrival;

pub use arrival::{
    creator_at, first_by, member_rule, parents_of_arrival, parents_of_signed, signature_rule,
};
