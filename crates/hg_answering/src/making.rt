ghost use Rattle.std.specs.Prelude.{◌≡◌, ◌<◌, [], ◌∷◌, length};
ghost use Rattle.hg_life.specs.NodeView.{node_rows};
ghost use Rattle.hg_life.specs.Results.{Reads};
ghost use Rattle.hg_node.specs.ChronicleView.{last_own_place};
ghost use Rattle.hg_answering.specs.Answering.{is_last_of_all, next_behind};

use hg_graph::EventGraph;
use hg_life::MakeFault;
use hg_model::{Member, Name, Prefix, is_of_graph};
use hg_node::Node;
use hg_service::NotMade;
use hg_sign::Signer;

/// Whether all rows behind this place are by the member.
fn is_last_of_all(graph: &EventGraph, own: Member, place: usize) -> bool
    requires { place < length graph.now.graph.rows }
    ensures { result ≡ is_last_of_all own graph.now.graph.rows place }
{
    is_of_graph(graph);
    for x in place + 1..graph.len() {
        if graph.row(x).creator != own {
            return false;
        }
    }
    true
}

/// The name of the other-parent of the event that a node makes next with such a payload, or why it makes none.
pub fn next_other<V: Signer>(node: &Node<V>, payload: &[u8]) -> Result<Name, NotMade>
    ensures { Reads (λ name. name ∷ []) result (next_behind node.now.start.own (node_rows node.now) payload.now
        (last_own_place node.now.start.own (node_rows node.now))) }
{
    let Some(place) = node.last_own() else {
        return Err(NotMade::Fault(MakeFault::NoFirst));
    };
    let Some(Some(name)) = node.next_other() else {
        return Err(NotMade::PeerBare);
    };
    if payload.is_empty() && is_last_of_all(node.graph(), node.own(), place) {
        return Err(NotMade::Idle);
    }
    Ok(name)
}
