ghost use Rattle.std.specs.Prelude.{◌≡◌, ◌<◌, true, All, IfOk, OnErr, length};
ghost use Rattle.hg_exchange.specs.Exchanges.{IsTaking, played_node};
ghost use Rattle.hg_exchange.specs.Messages.{names_in};
ghost use Rattle.hg_play.specs.Sites.{IsMadeWith};
ghost use Rattle.hg_script.specs.Lawful.{IsLine};
ghost use Rattle.hg_wire.specs.declared.message.Want.TheVariants.{Have, Rows};
ghost use Rattle.hg_wire.specs.Exchange.{Delivers, answer_of, asked_of};
ghost use Rattle.hg_wire.specs.Grammar.{Fits, is_rows};

use crate::message::names_of;
use crate::playing::node_of;
use hg_gossip::{Taken, taking_beyond_holds};
use hg_io::Sink;
use hg_life::Members;
use hg_model::{Member, Memory};
use hg_node::Node;
use hg_outcome::Outcome;
use hg_play::block_of;
use hg_script::Line;
use hg_sign::SharedTable;
use hg_wire::{Delivery, Message, exchanges_fit};
use std::alloc::Global;

/// What came of a message that a node took.
#[derive(Debug, Drop)]
pub struct Took {
    /// How many of its rows were taken, and how many refused.
    pub counts: Taken,
    /// The node's block, all being published that its graph decides.
    pub outcome: Outcome,
}

/// Plays the lines, and writes HAVE of the tips of this member's node. Without memory nothing is written.
pub fn ask<K: Sink>(
    alloc: Global,
    members: &Members,
    lines: &[Line],
    own: Member,
    out: &mut K,
) -> Result<Delivery, Memory>
    requires own { own < length members.now.entries }
    requires lines { All (IsLine members.now 0) lines.now }
    ensures sent { IfOk result (Delivers K.Sink out.old out.new (asked_of (played_node members.now lines.now own))) }
    ensures fits { IfOk result (λ sent. Fits Have (asked_of (played_node members.now lines.now own))) }
    ensures none { OnErr result (out.new ≡ out.old) }
{
    let mut node = node_of(alloc, members, lines, own)?;
    node.is_node();
    exchanges_fit::<SharedTable, SharedTable>();
    hg_wire::ask(&mut node, out)
}

/// Plays the lines, and writes ROWS of what this member's node has beyond the rows that HAVE names. Without memory nothing
/// is written.
pub fn serve<K: Sink>(
    alloc: Global,
    members: &Members,
    lines: &[Line],
    own: Member,
    have: &Message,
    out: &mut K,
) -> Result<Delivery, Memory>
    requires own { own < length members.now.entries }
    requires lines { All (IsLine members.now 0) lines.now }
    ensures sent { IfOk result
        (Delivers K.Sink out.old out.new (answer_of (names_in have.now) (played_node members.now lines.now own))) }
    ensures fits { IfOk result (λ sent. Fits Rows (answer_of (names_in have.now) (played_node members.now lines.now own))) }
    ensures none { OnErr result (out.new ≡ out.old) }
{
    let mut node = node_of(alloc, members, lines, own)?;
    node.is_node();
    exchanges_fit::<SharedTable, SharedTable>();
    hg_wire::answer(&mut node, names_of(have), out)
}

/// Puts the rows of ROWS to the node, and then publishes all that its graph decides.
fn take_all(
    alloc: Global,
    members: &Members,
    mut node: Node<SharedTable>,
    rows: &Message,
) -> Result<Took, Memory>
    requires made { IsMadeWith members.now node }
    requires rows { is_rows rows.now ≡ true }
    ensures { IfOk result (IsTaking members.now node rows.now) }
{
    node.is_node();
    taking_beyond_holds::<SharedTable, SharedTable>();
    let counts = hg_wire::take(&mut node, rows)?;
    node.settle()?;
    let outcome = block_of(alloc, members, &node)?;
    Ok(Took { counts, outcome })
}

/// Plays the lines, puts the rows of ROWS to this member's node, one after the other in their order, publishes all that its
/// graph then decides, and answers what came of it.
pub fn take(
    alloc: Global,
    members: &Members,
    lines: &[Line],
    own: Member,
    rows: &Message,
) -> Result<Took, Memory>
    requires own { own < length members.now.entries }
    requires lines { All (IsLine members.now 0) lines.now }
    requires rows { is_rows rows.now ≡ true }
    ensures { IfOk result (IsTaking members.now (played_node members.now lines.now own) rows.now) }
{
    let node = node_of(alloc, members, lines, own)?;
    take_all(alloc, members, node, rows)
}
