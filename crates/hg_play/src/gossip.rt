ghost use Rattle.std.specs.Prelude.{IfOk};
ghost use Rattle.hg_play.specs.Lines.{IsGossipBelow};
ghost use Rattle.hg_play.specs.Nodes.{IsKept, MatchesGossip};

use crate::labels::{bytes_at, names_of_labels};
use crate::nodes::Nodes;
use hg_model::{Bytes, Memory};
use hg_outcome::Printed;
use hg_script::Gossip;
use std::alloc::Global;

/// Plays a line of gossip, and gives what it prints.
pub(crate) fn play_gossip<N: Nodes>(
    alloc: Global,
    nodes: &mut N,
    labels: &[Bytes],
    line: u64,
    gossip: &Gossip,
) -> Result<Printed, Memory>
    requires { IsGossipBelow (N.seen nodes.old).count gossip.now }
    ensures kept { IsKept (N.seen nodes.old) (N.seen nodes.new) }
    ensures told { IfOk result (MatchesGossip (N.seen nodes.old) (N.seen nodes.new) labels.now line gossip.now) }
{
    match gossip {
        Gossip::Create {
            member,
            time,
            payload,
        } => {
            let answer = nodes.make(*member, &[], *time, payload.as_slice())?;
            Ok(Printed::Create { line, answer })
        }
        Gossip::Sync {
            taker,
            peer,
            time,
            payload,
        } => {
            let report = nodes.sync(*taker, *peer, *time, payload.as_slice())?;
            Ok(Printed::Sync { line, report })
        }
        Gossip::Pull { taker, peer } => {
            let counts = nodes.pull(*taker, *peer)?;
            Ok(Printed::Pull {
                line,
                taken: counts.taken,
                refused: counts.refused,
            })
        }
        Gossip::Join {
            member,
            others,
            time,
            payload,
        } => {
            let names = names_of_labels(alloc, labels, others.as_slice())?;
            let answer = nodes.make(*member, names.as_slice(), *time, payload.as_slice())?;
            Ok(Printed::Join { line, answer })
        }
        Gossip::Give { member, label } => {
            let answer = nodes.put(*member, bytes_at(labels, *label))?;
            Ok(Printed::Give { line, answer })
        }
    }
}
