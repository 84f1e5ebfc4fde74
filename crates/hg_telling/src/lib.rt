//! The printing end of a node that a host drives: the text of an answer, and the digest by which hosts compare their members.
//! Which text that is stands in `hg_service`.
//! The layer above uses `write_answer`, which writes `answer_text` of an answer to a sink, by pages, without memory, and
//! `digest_of`, which is the definition of that name.
//!
//! From `write_answer` of `hg_telling`:
//!
//! ```text
//! let mut page = Page::new();
//! write_text(&mut page, sink, members, answer)?;
//! page.send(sink)
//! ```
#![tactic(auto)]

mod answer;
mod digest;
mod digits;
mod first;
mod further;

pub use answer::write_answer;
pub use digest::digest_of;
