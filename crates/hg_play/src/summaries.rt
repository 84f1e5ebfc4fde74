ghost use Rattle.std.specs.Prelude.{◌≡◌, ◌<◌, ◌^◌, All, IfOk, OnOk, length, true};
ghost use Rattle.std.specs.List.{sum};
ghost use Rattle.sha2.specs.Sha512.{sha384};
ghost use Rattle.hg_model.specs.declared.row.Placed.{Placed};
ghost use Rattle.hg_outcome.specs.Summary.{summary_of};
ghost use Rattle.hg_world.specs.World.{IsMemberOf, node_at};
ghost use Rattle.hg_play.specs.Outcomes.{world_outcome};
ghost use Rattle.hg_play.specs.Sites.{AreMadeWith};
ghost use Rattle.hg_play.specs.Summaries.{IsTold, digest_of, names_in, node_told, with_told};

use crate::outcomes::names;
use hg_life::Members;
use hg_model::{Items, Member, Memory, Name, Placed, Prefix};
use hg_node::Node;
use hg_outcome::{NodeSummary, Summary};
use hg_sign::Signer;
use hg_world::World;
use sha2::{Digest, Sha384};
use std::alloc::Global;

/// The digest of the names of the rows of an order.
fn order_digest<P: Prefix>(p: &P, order: &[Placed]) -> Name
    requires { All (λ (x : Placed). x.place < length (P.graph p.now).rows) order.now }
    ensures { result ≡ sha384 (names_in (P.graph p.now).rows order.now) }
{
    let mut hasher = Sha384::new();
    for placed in order {
        hasher.update(p.row(placed.place).name.as_slice());
    }
    hasher.finalize()
}

/// Whether the rows of two orders have the same names.
fn have_same_names<P: Prefix>(p: &P, order: &[Placed], q: &P, others: &[Placed]) -> bool
    requires places { All (λ (x : Placed). x.place < length (P.graph p.now).rows) order.now }
    requires others { All (λ (x : Placed). x.place < length (P.graph q.now).rows) others.now }
    ensures { result ≡ true → names_in (P.graph p.now).rows order.now ≡ names_in (P.graph q.now).rows others.now }
{
    if order.len() != others.len() {
        return false;
    }
    for i in 0..order.len() {
        if p.row(order[i].place).name != q.row(others[i].place).name {
            return false;
        }
    }
    true
}

/// The digest of the order of a node.
fn digest_of<V: Signer>(node: &Node<V>) -> Name
    ensures { result ≡ digest_of node.now }
{
    order_digest(node.graph(), node.kept())
}

/// Whether two nodes keep orders of the same names.
fn are_alike<V: Signer>(node: &Node<V>, twin: &Node<V>) -> bool
    ensures { result ≡ true → digest_of node.now ≡ digest_of twin.now }
{
    have_same_names(node.graph(), node.kept(), twin.graph(), twin.kept())
}

/// The digest of the order of a member's node. That of a node that was told before serves, where both keep the same names: to
/// compare them takes a tenth of the time of a digest.
fn digest_beside(world: &World, told: &[NodeSummary], member: Member) -> Name
    requires member { IsMemberOf world.now member }
    requires told { All (IsTold world.now) told.now }
    ensures { result ≡ digest_of (node_at world.now member) }
{
    let node = world.node(member);
    for other in told {
        if are_alike(world.node(other.member), node) {
            return other.digest;
        }
    }
    digest_of(node)
}

/// The sum of all balances.
fn total_of(balances: &[u64]) -> u128
    ensures { result ≡ sum balances.now }
{
    let mut total: u128 = 0;
    for balance in balances {
        total += u128::from(*balance);
    }
    total
}

/// What is told of the node of a member, whose order has this digest.
fn node_told<V: Signer>(member: Member, node: &Node<V>, digest: Name) -> NodeSummary
    requires { digest ≡ digest_of node.now }
    ensures { result ≡ node_told member node.now }
{
    NodeSummary {
        member,
        events: node.rows() as u64,
        forkers: node.forkers(),
        greatest: node.greatest(),
        closed: node.closed(),
        ordered: node.kept().len() as u64,
        digest,
        total: total_of(node.book().balances()),
    }
}

/// What is told of a member's node behind what is told of others, if the member has one.
fn push_told(
    members: &Members,
    world: &World,
    member: usize,
    nodes: &mut Vec<NodeSummary>,
) -> Result<(), Memory>
    requires below { IsMemberOf world.now member }
    requires few { member < 2 ^ 16 }
    requires told { All (IsTold world.now) nodes.old.items }
    ensures pushed { OnOk result (nodes.new.items ≡ with_told members.now world.now nodes.old.items member) }
    ensures told { OnOk result (All (IsTold world.now) nodes.new.items) }
{
    if members.has_node(member as Member) {
        let digest = digest_beside(world, nodes.as_slice(), member as Member);
        let told = node_told(member as Member, world.node(member as Member), digest);
        nodes.push(told)?;
    }
    Ok(())
}

/// What is told of each node of a world, in the order of the members, by the marks that it has published. The world was made
/// with these members.
pub fn summary_of(alloc: Global, members: &Members, world: &World) -> Result<Summary, Memory>
    requires made { AreMadeWith members.now world.now }
    requires count { length world.now.sites ≡ length members.now.entries }
    ensures { IfOk result (λ summary. summary ≡ summary_of (world_outcome members.now world.now)) }
{
    world.is_world();
    let mut nodes = Vec::new(alloc);
    for member in 0..members.count() as usize {
        push_told(members, world, member, &mut nodes)?;
    }
    let names = names(alloc, members)?;
    Ok(Summary {
        names,
        nodes: Items::from_vec(nodes),
    })
}
