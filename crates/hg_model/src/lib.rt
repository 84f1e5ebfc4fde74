//! What the report says of a graph: stakes, places, links, ancestry, forks, seeing, rounds, votes, fame and order, and the
//! types and traits of the algorithm. `specs/` is the text that a reader must believe; it follows SWIRLDS-TR-2016-01 and
//! computes on written-out graphs. A node's life stands in `hg_life`, what is printed in `hg_outcome`.
//! The layers above use the types below, the words of `specs/` and the lemmas of `proofs/`.
//!
//! From `holder_time` of `hg_order`, over a `Prefix` and in the words of this crate:
//!
//! ```text
//! fn holder_time<P: Prefix>(p: &P, w: usize, x: usize) -> u64
//!     requires shaped { IsShapedIn (shape_in (P.graph p.now)) }
//!     requires line { w < length (links_of (P.graph p.now)) }
//!     requires place { x < length (links_of (P.graph p.now)) }
//!     requires has { is_ancestor (links_of (P.graph p.now)) w x ≡ true }
//!     ensures { result ≡ time_at (P.graph p.now).rows (first_holder (links_of (P.graph p.now)) x w) }
//! {
//!     is_of_graph(p);
//!     p.row(first_holder(p, x, w)).time
//! }
//! ```
#![tactic(auto)]

mod ballot;
mod counts;
mod items;
mod memory;
mod parents;
mod prefix;
mod rounds;
mod row;
mod seeing;
mod share;
mod sight;
mod stop;
mod votes;

pub use ballot::Ballot;
pub use counts::Counts;
pub use items::{Bytes, Items};
pub use memory::{Memory, reserve_all};
pub use parents::Parents;
pub use prefix::{Prefix, is_of_graph};
pub use rounds::Rounds;
pub use row::{Member, Name, Placed, Row, Sig};
pub use seeing::is_supermajority;
pub use share::{Found, Share};
pub use sight::{Growing, Sight, is_shaped};
pub use stop::Stop;
pub use votes::Votes;
