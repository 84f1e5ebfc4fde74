//! What a host program says to the node of a member, and what it is told: a request is a line, an answer a line with a count of
//! the lines that follow it. `specs/Asking.antt` says which lines there are and which request each is, `specs/Text.antt` how an
//! answer is written, and `specs/Binding.antt` by which text of the member file, and by which first event, a node is bound to it.
//! Here are the values, without a node; what a node answers stands in `hg_answering`.
//!
//! From `made_text` in `Worked.antt` of `hg_service`:
//!
//! ```text
//! answer_text members (answer.Made 8 (0 ∷ 255 ∷ [])) ≡ codes "0 made 8 00ff\n"
//! ```
#![tactic(auto)]

mod answer;
mod request;

pub use answer::{Answer, NotMade, OrderedEvent, RefusedEvent};
pub use request::{LineFault, ServiceRequest};
