//! Vote workers: each takes from a node between threads what its share may still decide, elects that without the turn,
//! and publishes what it found.
//! The layer above uses `Voters` as a `Crew` of `hg_board`, whose clauses say what a worker may do and what it owes.
//!
//! From `vote` of `check_threads`:
//!
//! ```text
//! fn vote<R: Wait, G: Gate>(rt: &R, alloc: Global, shared: &Shared<MacTable>, mut seat: Seat<MacTable>, gate: &G)
//!     -> (Seat<MacTable>, Result<u32, Memory>)
//!     requires { IsOf shared.now seat }
//!     ensures of { IsOf shared.now result.0 }
//!     ensures parts { result.0.parts ≡ seat.parts }
//! {
//!     let all = Share::new(0, 1);
//!     let marked = Voters::new(gate).work(rt, alloc, shared, &mut seat, all, TURNS);
//!     (seat, marked)
//! }
//! ```
#![tactic(auto)]

mod voters;

pub use voters::Voters;
