// What the members' nodes refused, by the names of rows.
ghost use Rattle.std.specs.Prelude.{◌≡◌, ◌<◌, All, IfOk, map};
ghost use Rattle.hg_storm.specs.Refusals.{HasRow, HaveRows, refusal_of, refusals_of};

use crate::desk::Log;
use crate::taking::RefusedMessage;
use hg_life::Fault;
use hg_mail::Message;
use hg_model::{Member, Memory, Name};
use hg_node::Node;
use hg_sign::SharedTable;
use std::alloc::Global;

/// A row that a member's node refused.
#[derive(Clone, Copy, Debug, PartialEq, Eq)]
pub struct Refusal {
    /// Who sent it.
    pub from: Member,
    pub name: Name,
    pub why: Fault,
    /// How many changes the node had then.
    pub at: usize,
}

/// What one member's node refused of the messages that it took.
fn name_refused(
    alloc: Global,
    nodes: &[Node<SharedTable>],
    taken: &[Message],
    refused: &[RefusedMessage],
) -> Result<Vec<Refusal>, Memory>
    requires { All (HasRow nodes.now taken.now) refused.now }
    ensures { IfOk result (λ named. named.items ≡ map (refusal_of nodes.now taken.now) refused.now) }
{
    let mut named = Vec::new(alloc);
    for one in refused {
        let message = &taken[one.index];
        let node = &nodes[message.from as usize];
        named.push(Refusal {
            from: message.from,
            name: node.row(message.number).name,
            why: one.why,
            at: one.at,
        })?;
    }
    Ok(named)
}

/// What each member's node refused.
pub(crate) fn refused_of(
    alloc: Global,
    nodes: &[Node<SharedTable>],
    logs: &[Log],
) -> Result<Vec<Vec<Refusal>>, Memory>
    requires { All (HaveRows nodes.now) logs.now }
    ensures { IfOk result (λ refused. map (λ l. l.items) refused.items ≡ map (refusals_of nodes.now) logs.now) }
{
    let mut refused = Vec::new(alloc);
    for log in logs {
        let named = name_refused(
            alloc,
            nodes,
            log.intake.taken.as_slice(),
            log.intake.refused.as_slice(),
        )?;
        refused.push(named)?;
    }
    Ok(refused)
}

/// How many of its turns each member made no event.
pub(crate) fn idle_of(alloc: Global, logs: &[Log]) -> Result<Vec<u32>, Memory>
    ensures { IfOk result (λ idle. idle.items ≡ map (λ g. g.idle) logs.now) }
{
    let mut idle = Vec::new(alloc);
    for log in logs {
        idle.push(log.idle)?;
    }
    Ok(idle)
}
