//! An order book that follows an order of events: requests to buy and sell, and what becomes of them.
//! The layers above use that `add` leaves the book `with_event`, so that the book of an order is
//! one fold over its events and their payloads alone.
//!
//! From `read_at` of `order_market`:
//!
//! ```text
//! fn read_at(book: &mut Book, node: &Node<SharedTable>, place: usize) -> Result<(), Memory>
//!     requires place { place < length (node_rows node.now) }
//!     requires few { book.old.events + 1 < 2 ^ 64 }
//!     ensures { OnOk result (book.new ≡ with_event book.old (event_at (node_rows node.now) place)) }
//! {
//!     let row = node.row(place);
//!     book.add(row.creator, row.payload.as_slice())
//! }
//! ```
#![tactic(auto)]

mod book;
mod laws;
mod matching;
mod orders;
mod request;
mod side;

pub use book::Book;
pub use laws::{books_go_on, nothing_is_lost, requests_are_spelled};
pub use orders::{Order, Trade};
pub use request::{Request, RequestFault, Side, read_request, write_request};
pub use side::BookSide;
