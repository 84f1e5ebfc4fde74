ghost use Rattle.std.specs.Prelude.{◌≡◌, IfOk, IsTrue};
ghost use Rattle.hg_model.specs.Order.{closed_of, order_of};
ghost use Rattle.hg_model.specs.Prefix.{graph_of};
ghost use Rattle.hg_life.specs.NodeView.{kept_of, last_closed_of, node_rows};

use hg_check::are_equal;
use hg_model::{Items, Member, Memory, Prefix, Row, Sight, is_of_graph};
use hg_node::Node;
use hg_plain::{PlainPrefix, PlainSight, PlainWhole, plain_whole};
use hg_sign::MacTable;
use std::alloc::Global;

/// A copy of the node's rows.
pub fn rows_of(alloc: Global, node: &Node<&MacTable>) -> Result<Vec<Row>, Memory>
    ensures { IfOk result (λ rows. rows.items ≡ node_rows node.now) }
{
    let mut rows = Vec::new(alloc);
    for place in 0..node.rows() {
        let copy = copy_of(alloc, node.row(place))?;
        rows.push(copy)?;
    }
    Ok(rows)
}

fn copy_of(alloc: Global, row: &Row) -> Result<Row, Memory>
    ensures { IfOk result (λ copy. copy ≡ row.now) }
{
    let parents = match &row.parents {
        None => None,
        Some(names) => Some((names.0, copied(alloc, names.1.as_slice())?)),
    };
    Ok(Row {
        creator: row.creator,
        parents,
        time: row.time,
        payload: copied(alloc, row.payload.as_slice())?,
        sig: row.sig,
        name: row.name,
    })
}

fn copied<T: Copy>(alloc: Global, items: &[T]) -> Result<Items<T>, Memory>
    ensures { IfOk result (λ copy. copy ≡ items.now) }
{
    Ok(Items::from_vec(Vec::from_slice(alloc, items)?))
}

/// What the members of the node's graph weigh.
fn stakes_of(alloc: Global, node: &Node<&MacTable>) -> Result<Vec<u32>, Memory>
    ensures { IfOk result (λ stakes. stakes.items ≡ node.now.start.members) }
{
    let graph = node.graph();
    let mut stakes = Vec::new(alloc);
    for member in 0..graph.members() {
        stakes.push(graph.stake(member as Member))?;
    }
    Ok(stakes)
}

/// All that the plain program tells of the node's rows.
#[tactic(auto, using(hg_model::proofs::LinkLaws::link_lengths))]
pub fn whole_of(alloc: Global, node: &Node<&MacTable>) -> Result<PlainWhole, Memory>
    ensures order { IfOk result (λ whole. whole.order ≡ order_of node.now.start.members node.now.start.coin (node_rows node.now)) }
    ensures closed { IfOk result (λ whole. whole.state.closed ≡ closed_of node.now.start.members node.now.start.coin (node_rows node.now)) }
{
    let rows = rows_of(alloc, node)?;
    let stakes = stakes_of(alloc, node)?;
    let graph = node.graph();
    is_of_graph(graph);
    plain_whole(alloc, &rows, &stakes, graph.coin())
}

/// Whether the node's kept order and last closed round are those that the plain program tells.
pub fn is_published(node: &Node<&MacTable>, whole: &PlainWhole) -> bool
    ensures order { IsTrue result → kept_of node.now ≡ whole.now.order }
    ensures closed { IsTrue result → last_closed_of node.now ≡ whole.now.state.closed }
{
    are_equal(node.kept(), whole.order.as_slice()) && node.closed() == whole.state.closed
}

/// The plain program's tables of the node's rows.
#[tactic(auto, using(hg_model::proofs::LinkLaws::link_lengths))]
pub fn tables_of<'b>(
    alloc: Global,
    node: &Node<&MacTable>,
    rows: &'b [Row],
) -> Result<PlainPrefix<'b>, Memory>
    requires { rows.now ≡ node_rows node.now }
    ensures { IfOk result (λ tables. tables ≡ graph_of node.now.start.members node.now.start.coin (node_rows node.now)) }
{
    let stakes = stakes_of(alloc, node)?;
    let graph = node.graph();
    is_of_graph(graph);
    let sight = PlainSight::new(alloc, rows, &stakes)?;
    PlainPrefix::new(alloc, rows, sight, graph.coin())
}
