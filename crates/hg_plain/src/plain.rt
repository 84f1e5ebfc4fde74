ghost use Rattle.std.specs.Prelude.{◌≡◌, ◌<◌, ◌≤◌, ◌-◌, ◌^◌, length, IfOk};
ghost use Rattle.hg_model.specs.Links.{links};
ghost use Rattle.hg_model.specs.Forks.{forkers};
ghost use Rattle.hg_model.specs.Graph.{IsShaped};
ghost use Rattle.hg_model.specs.Rounds.{last_round};
ghost use Rattle.hg_model.specs.Fame.{fame_marks};
ghost use Rattle.hg_model.specs.Order.{coin_at, last_closed, order_of, closed_of};
ghost use Rattle.hg_model.specs.Prefix.{graph_of, links_of};
ghost use Rattle.hg_model.specs.Shape.{shape_of};
ghost use Rattle.hg_model.specs.GraphWords.{shape_in, last_round_in, last_closed_in};
ghost use Rattle.hg_plain_graph.specs.Held.{IsClosedTable};

use crate::fame::marks;
use crate::order::ordered_rows;
use crate::prefix::PlainPrefix;
use hg_model::{Items, Memory, Placed, Row};
use hg_plain_graph::{PlainSight, closed_rounds, last_closed};
use std::alloc::Global;

/// What the procedures tell of a graph besides its order.
#[derive(Clone, Copy, Debug, PartialEq, Eq)]
pub struct PlainState {
    /// How many members have a fork.
    pub forkers: u32,
    /// The greatest round, 0 without rows.
    pub greatest: u32,
    /// The greatest closed round, or 0.
    pub closed: u32,
}

/// All that the procedures tell of a graph.
#[derive(Debug, Drop)]
pub struct PlainWhole {
    pub state: PlainState,
    /// The rows that closed rounds receive, in order.
    pub order: Items<Placed>,
}

/// A graph with its fame: its tables, a mark for each row, and whether each round is closed.
#[derive(Drop)]
struct Elected<'a> {
    prefix: PlainPrefix<'a>,
    marks: Vec<Option<bool>>,
    closed: Vec<bool>,
}

/// Elects the famous witnesses of the rows, and closes rounds.
#[tactic(auto, using(hg_model::proofs::LinkLaws::link_lengths))]
fn elect<'a>(
    alloc: Global,
    rows: &'a [Row],
    stakes: &[u32],
    coin: u32,
) -> Result<Elected<'a>, Memory>
    requires shaped { IsShaped stakes.now (links rows.now) }
    requires short { length rows.now < 2 ^ 32 - 1 }
    requires few { length stakes.now ≤ 128 }
    requires coin { 2 < coin }
    ensures graph { IfOk result (λ e. e.prefix ≡ graph_of stakes.now coin rows.now) }
    ensures marks { IfOk result (λ e. e.marks.items ≡ fame_marks stakes.now coin (links rows.now) (coin_at rows.now)) }
    ensures closed { IfOk result (λ e. IsClosedTable (shape_of stakes.now (links rows.now)) e.marks.items e.closed.items) }
{
    let sight = PlainSight::new(alloc, rows, stakes)?;
    let prefix = PlainPrefix::new(alloc, rows, sight, coin)?;
    let marks = marks(alloc, &prefix)?;
    let closed = closed_rounds(alloc, prefix.tables(), &marks)?;
    Ok(Elected {
        prefix,
        marks,
        closed,
    })
}

/// What the procedures tell besides the order.
fn state_of(graph: &Elected<'_>) -> PlainState
    requires short { length graph.now.closed.items < 2 ^ 32 }
    requires closed { IsClosedTable (shape_in graph.now.prefix) graph.now.marks.items graph.now.closed.items }
    ensures forkers { result.forkers ≡ forkers graph.now.prefix.members (links_of graph.now.prefix) }
    ensures greatest { result.greatest ≡ last_round_in graph.now.prefix }
    ensures closed { let g = graph.now.prefix in result.closed ≡ last_closed_in g graph.now.marks.items }
{
    PlainState {
        forkers: graph.prefix.tables().forkers(),
        greatest: graph.prefix.tables().greatest(),
        closed: last_closed(&graph.closed),
    }
}

/// All that the procedures tell of a graph by members with these stakes, from one set of tables.
pub fn plain_whole(
    alloc: Global,
    rows: &[Row],
    stakes: &[u32],
    coin: u32,
) -> Result<PlainWhole, Memory>
    requires shaped { IsShaped stakes.now (links rows.now) }
    requires short { length rows.now < 2 ^ 32 - 1 }
    requires few { length stakes.now ≤ 128 }
    requires coin { 2 < coin }
    ensures forkers { IfOk result (λ whole. whole.state.forkers ≡ forkers stakes.now (links rows.now)) }
    ensures greatest { IfOk result (λ whole. whole.state.greatest ≡ last_round stakes.now (links rows.now)) }
    ensures closed { IfOk result (λ whole. whole.state.closed ≡ closed_of stakes.now coin rows.now) }
    ensures order { IfOk result (λ whole. whole.order ≡ order_of stakes.now coin rows.now) }
{
    let graph = elect(alloc, rows, stakes, coin)?;
    let order = ordered_rows(alloc, &graph.prefix, &graph.marks, &graph.closed)?;
    Ok(PlainWhole {
        state: state_of(&graph),
        order: Items::from_vec(order),
    })
}
