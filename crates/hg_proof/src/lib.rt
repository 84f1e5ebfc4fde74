//! Order certificates: the order of a graph in bytes, for one who was not there and has no node. Who has the list of the
//! members and something to check their signatures by learns from these bytes alone what is ordered, and how.
//! `check` says yes just where the bytes show a graph of signed events and its whole order (`Shows`), and else it tells the
//! first reason (`judged`). What is shown and the order of any node do not part, under the premises of safety, with the graph
//! that is shown as a further one of the run: `certificates_are_safe`.
//! The rows come to a graph of no member (`empty_graph`), by the rules of `hg_arrival`; the order is that of a graph behind
//! which nothing was published (`Kept::behind`). Both cost what they cost a node. `certificate` writes the bytes of a node's
//! order, with the fewest first rows that have it (`Proves`).
//!
//! From `read_certificate` of `hg_certify`:
//!
//! ```text
//! match check(alloc, &keys, &mut graph, bytes)? {
//!     Checked::Yes(shown) => Ok(Ok(shown)),
//!     Checked::No(why) => Ok(Err(why)),
//! }
//! ```
#![tactic(auto)]

mod checking;
mod comparing;
mod fields;
mod filling;
mod laws;
mod least;
mod ordering;
mod proving;
mod reading;
mod shown;
mod why;
mod writing;

pub use checking::check;
pub use fields::CERTIFICATE_ROWS;
pub use filling::empty_graph;
pub use laws::{certificates_are_judged, certificates_are_safe};
pub use proving::certificate;
pub use shown::{Checked, Shown};
pub use why::Why;
