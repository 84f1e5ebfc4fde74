//! Laws of histories: what the rows, links, marks and kept order of a node are after any changes that may come.
//! Each law is the contract of a function without a body, so that the must-fail edits change definitions.
//! The layers above use that a kept order only grows, `order_grows`, and that each mark is the fame of the graph.
//!
//! From `events_grow` in `GrowthLaws.antt` of `order_market`, shortened:
//!
//! ```text
//! use Rattle.hg_history.proofs.KeptLaws.{order_grows}
//!
//! events_grow terms n c own a b three is =
//!     let s = replay n c a in
//!     let t = replay n c (a ++ b) in
//!     let order = order_grows terms n c own a b three is in
//! ```
#![tactic(auto)]

mod laws;

pub use laws::{
    found_lasts, history_grows, log_spells_history, makes_add_one, marks_are_fame, names_stay_held,
    order_by_rounds, order_grows, puts_add_one, rows_are_a_graph, rows_came_by_changes,
    settles_all, shares_are_all,
};
