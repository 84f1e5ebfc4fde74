ghost use Rattle.std.specs.Prelude.{◌≡◌, ◌<◌, All, IfOk, length};
ghost use Rattle.hg_exchange.specs.Exchanges.{played_node};
ghost use Rattle.hg_play.specs.Sites.{IsMadeWith};
ghost use Rattle.hg_script.specs.Lawful.{IsLine};

use hg_life::Members;
use hg_model::{Member, Memory};
use hg_node::Node;
use hg_play::play_world;
use hg_script::Line;
use hg_sign::SharedTable;
use std::alloc::Global;

/// The node of a member, once these lines were played without workers and all nodes were settled.
pub(crate) fn node_of(
    alloc: Global,
    members: &Members,
    lines: &[Line],
    own: Member,
) -> Result<Node<SharedTable>, Memory>
    requires own { own < length members.now.entries }
    requires lines { All (IsLine members.now 0) lines.now }
    ensures node { IfOk result (λ node. node ≡ played_node members.now lines.now own) }
    ensures made { IfOk result (IsMadeWith members.now) }
{
    let world = play_world(alloc, members, lines)?;
    let mut nodes = world.into_nodes();
    Ok(nodes.remove(own as usize))
}
