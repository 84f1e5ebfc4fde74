//! Laws of two graphs, contracts of functions without bodies: what they have in common they see, judge and order alike.
//! The layers above use `orders_of_chains`: where each member, but for less than a third of the stake, has one chain in
//! both, and names do not collide, of their orders one is a prefix of the other. Must-fail edits change definitions.
//!
//! From `honest_agree` in `SafetyLaws.antt` of `hg_runs`, shortened:
//!
//! ```text
//! use Rattle.hg_prefix.proofs.CoreLaws.{chain_no_fork, chain_orders, stand_in_one}
//!
//! let orders = chain_orders n c 48 (rows_after n c a) (rows_after n c b)
//!     (replay n c a).marks (replay n c b).marks faulty is.coin first.graph second.graph
//!     (moment_fame terms n c run is j a at_a) (moment_fame terms n c run is k b at_b)
//!     (equal_rows n c run j k a b apart at_a at_b) first.sizes second.sizes few ... in
//! rw (order_is terms n c run is j a at_a, order_is terms n c run is k b at_b) orders
//! ```
#![tactic(auto)]

mod laws;

pub use laws::{
    famous_are_the_same, order_grows, orders_are_prefixes, orders_of_chains, parts_are_alike,
};
