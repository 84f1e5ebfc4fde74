//! Payloads of transfers, read where they lie, and the balances that they leave.
//! The layers above use that a ledger's `pay` makes its book that of the order, whose first events are paid before: of
//! one event a book's `apply_payload`, whatever its bytes are. Only `new`, `reserve` and `write_pay` take memory.
//!
//! From `add` and `publish` of the `Chronicle` of `hg_node`, whose `ledger` is a `Ledger`, shortened:
//!
//! ```text
//! self.ledger.reserve(place + 1)?;
//!
//! let count = self.kept.publish(&self.graph, found);
//! self.ledger.pay(&self.graph, self.kept.order());
//! ```
#![tactic(auto)]

mod book;
mod laws;
mod ledger;
mod pay;
mod paying;

pub use book::Book;
pub use laws::{books_go_on, pays_are_spelled, sum_is_kept};
pub use ledger::Ledger;
pub use pay::{Pay, read_pay, write_pay};
