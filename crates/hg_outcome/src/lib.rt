//! What is printed: a node's block, the pieces of the report and their text. `specs/` is the text that a reader must believe.
//! The layers above use the types below and the words of `specs/`.
//!
//! From `text_of` of `hg_report`, in the words of this crate:
//!
//! ```text
//! pub fn text_of<K: Sink>(outcome: &Outcome, sink: &mut K) -> Result<(), Failed>
//!     ensures { Prints K.Sink sink.old sink.new (report_text outcome.now) result }
//! {
//!     let mut page = Page::new();
//!     write_texts(
//!         &mut page,
//!         sink,
//!         outcome.names.as_slice(),
//!         outcome.printed.as_slice(),
//!     )?;
//!     page.send(sink)
//! }
//! ```
#![tactic(auto)]

mod outcome;

pub use outcome::{Block, Head, NodeSummary, OrderLine, Outcome, Printed, Summary};
