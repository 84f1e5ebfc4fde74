//! A market that no member rules: the members' nodes in a world, and of each node the book of the order that it keeps.
//! The program above hands actions to a `Market`, and reads the books. Of two books one is an earlier state of the other
//! (`safe` of `run`), if the dishonest have less than a third of the stake and names do not collide.
//!
//! From `play` and `print_all` of `order_book`, shortened:
//!
//! ```text
//! let actions = opening(alloc)?;
//! let market = market.run(&actions)?;
//! print_book(rt, member, market.book(member))?;
//! ```
#![tactic(auto)]

mod action;
mod market;
mod reading;

pub use action::Action;
pub use market::Market;
