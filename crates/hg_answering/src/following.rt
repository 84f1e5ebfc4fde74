ghost use Rattle.std.specs.Prelude.{OnOk};
ghost use Rattle.hg_answering.specs.Notes.{AreLagging, AreNoted};

use crate::notes::Notes;
use hg_life::Members;
use hg_model::Memory;
use hg_node::Node;
use hg_sign::Signer;

/// Notes what came to a node since; some first part of that, where memory runs out.
pub fn follow<V: Signer>(members: &Members, node: &Node<V>, notes: &mut Notes) -> Result<(), Memory>
    requires { AreLagging members.now node.now notes.old }
    ensures noted { OnOk result (AreNoted members.now node.now notes.new) }
    ensures lagging { AreLagging members.now node.now notes.new }
{
    let bound = notes.bound;
    notes.rows.follow(&bound, node.graph())?;
    notes.order.follow(node.graph(), node.kept());
    Ok(())
}
