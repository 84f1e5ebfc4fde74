//! The members' nodes in one process: a run, step by step. An event that one hands to another was checked before, once.
//! The layers above use that each call leaves the world after the steps that it names (`after_steps`), and that of any
//! two nodes' orders one is a prefix of the other, where under a third of the stake is dishonest and no names collide.
//!
//! From `ordered` in the tests of `check_calls`:
//!
//! ```text
//! /// A member's node settles: how many events its order has then.
//! fn ordered(world: &mut World, member: Member) -> Result<usize, Memory>
//!     requires { IsMemberOf world.old member }
//!     ensures { IfOk result (λ n. n ≡ length (kept_of (node_at world.new member))) }
//! {
//!     steps_keep_sites();
//!     world.settle(member)?;
//!     Ok(world.node(member).kept().len())
//! }
//! ```
#![tactic(auto)]

mod laws;
mod nodes;
mod running;
mod site;
mod step;
mod syncing;
mod world;

pub use laws::{pulls_set_one_node, steps_keep_sites, steps_only_add, steps_stay_lawful};
pub use step::{Reply, Step};
pub use world::World;
