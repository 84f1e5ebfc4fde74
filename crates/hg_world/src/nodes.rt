ghost use Rattle.std.specs.Prelude.{◌≡◌, ◌<◌, ◌≤◌, [], All, IfOk, length, vec_capacity};
ghost use Rattle.hg_life.specs.NodeView.{IsNode};
ghost use Rattle.hg_model.specs.Places.{table};
ghost use Rattle.hg_life.specs.Signing.{accepts_by, secrets_of};
ghost use Rattle.hg_world.specs.World.{new_node};
ghost use Rattle.hg_world.specs.Parts.{nodes_in, unfrozen};

use crate::site::Site;
use hg_life::Members;
use hg_model::{Member, Memory};
use hg_node::Node;
use hg_sign::SharedTable;
use std::alloc::Global;

/// A node for each member, without rows.
pub(crate) fn new_nodes(alloc: Global, members: &Members) -> Result<Vec<Node<SharedTable>>, Memory>
    ensures { IfOk result (λ nodes. nodes.items ≡ table (new_node members.now) (length members.now.entries)) }
{
    let keys = SharedTable::new(alloc, members)?;
    let mut nodes = Vec::new(alloc);
    for own in 0..members.count() {
        nodes.push(new_node(alloc, members, own as Member, &keys)?)?;
    }
    Ok(nodes)
}

/// The node of a member, without rows, under the members' secrets.
fn new_node(
    alloc: Global,
    members: &Members,
    own: Member,
    keys: &SharedTable,
) -> Result<Node<SharedTable>, Memory>
    requires member { own < length members.now.entries }
    requires keys { keys.now ≡ secrets_of members.now }
    ensures { IfOk result (λ node. node ≡ new_node members.now own) }
{
    Ok(Node::new(alloc, members, own, keys.shared()?)?)
}

/// That each of these is a node.
pub(crate) fn see_all(nodes: &Vec<Node<SharedTable>>)
    ensures { All (IsNode accepts_by) nodes.now.items }
{
    for node in nodes {
        node.is_node();
    }
}

/// Room for so many nodes, and for as many sites.
pub(crate) fn room_for(
    alloc: Global,
    count: usize,
) -> Result<(Vec<Node<SharedTable>>, Vec<Site>), Memory>
    ensures none { IfOk result (λ room. (room.0.items ≡ []) × (room.1.items ≡ [])) }
    ensures nodes { IfOk result (λ room. vec_capacity room.0 ≡ count) }
    ensures sites { IfOk result (λ room. vec_capacity room.1 ≡ count) }
{
    let nodes = Vec::with_capacity(alloc, count)?;
    let sites = Vec::with_capacity(alloc, count)?;
    Ok((nodes, sites))
}

/// The nodes as sites of whose rows no worker has frozen any, moved to where there is room for them.
pub(crate) fn into_sites(nodes: Vec<Node<SharedTable>>, mut sites: Vec<Site>) -> Vec<Site>
    requires none { sites.items ≡ [] }
    requires room { length nodes.items ≤ vec_capacity sites }
    ensures { result.items ≡ unfrozen nodes.items }
{
    for node in nodes {
        sites.push_reserved(Site {
            node,
            frozen: [0; 16],
        });
    }
    sites
}

/// The nodes of sites, moved to where there is room for them.
pub(crate) fn into_nodes(
    sites: Vec<Site>,
    mut nodes: Vec<Node<SharedTable>>,
) -> Vec<Node<SharedTable>>
    requires none { nodes.items ≡ [] }
    requires room { length sites.items ≤ vec_capacity nodes }
    ensures { result.items ≡ nodes_in sites.items }
{
    for site in sites {
        nodes.push_reserved(site.node);
    }
    nodes
}
