ghost use Rattle.std.specs.Prelude.{◌≡◌, IfOk};
ghost use Rattle.hg_storm.specs.Drawing.{circle_of};

use hg_life::Members;
use hg_model::{Member, Memory};
use std::alloc::Global;

/// What all threads of a storm know before their first turn.
#[derive(Debug, Drop)]
pub struct Plan {
    /// The members that have nodes, in order.
    pub circle: Vec<Member>,
    /// How many turns each of them takes.
    pub turns: u32,
    /// What their draws begin with.
    pub seed: u64,
}

/// The members that have nodes, in order.
pub(crate) fn circle_of(alloc: Global, members: &Members) -> Result<Vec<Member>, Memory>
    ensures { IfOk result (λ circle. circle.items ≡ circle_of members.now) }
{
    let mut circle = Vec::new(alloc);
    for member in 0..members.count() {
        if members.has_node(member as Member) {
            circle.push(member as Member)?;
        }
    }
    Ok(circle)
}
