ghost use Rattle.std.specs.Prelude.{◌≡◌, ◌<◌, ◌≤◌, All, length, IfOk, OnOk};
ghost use Rattle.hg_kept.specs.Published.{FindsNewsOf, Keeps};
ghost use Rattle.hg_votes.specs.Counting.{IsMadeFor};
ghost use Rattle.hg_node.specs.Opening.{AddsOpen, AreUnmarked, Opens, OpensAll, is_open};

use hg_fame::elect_first;
use hg_graph::{EventGraph, FrozenGraph};
use hg_kept::Kept;
use hg_model::{Found, Memory, Prefix, Share};
use hg_votes::VoteTable;
use std::alloc::Global;

/// What a share of the witnesses may still decide in a node's graph, to be elected without the node.
#[derive(Drop)]
pub struct Open {
    /// The node's graph.
    pub graph: FrozenGraph,
    /// The votes of its witnesses.
    pub votes: VoteTable,
    /// The share's witnesses that have no mark, but for those that the graph is sure not to decide.
    pub places: Vec<usize>,
}

/// Whether a witness is one of the first `len` rows and of the share, and has no mark.
fn is_open(kept: &Kept, votes: &VoteTable, share: Share, len: usize, x: usize) -> bool
    requires marked { x < length kept.now.published.marks }
    requires numbered { x < length votes.now.voters.numbers }
    ensures { result ≡ is_open votes.now kept.now.published.marks share len x }
{
    x < len && votes.number(x) % share.of() as usize == share.k() as usize && kept.fame(x).is_none()
}

/// Adds the open ones of these witnesses to the places.
fn push_open(
    kept: &Kept,
    votes: &VoteTable,
    share: Share,
    len: usize,
    witnesses: &[usize],
    places: &mut Vec<usize>,
) -> Result<(), Memory>
    requires marked { All (λ x. x < length kept.now.published.marks) witnesses.now }
    requires numbered { All (λ x. x < length votes.now.voters.numbers) witnesses.now }
    ensures { OnOk result (AddsOpen votes.now kept.now.published.marks share len witnesses.now places.old.items places.new.items) }
{
    for x in witnesses {
        if is_open(kept, votes, share, len, *x) {
            places.push(*x)?;
        }
    }
    Ok(())
}

/// The share's witnesses without a mark that the first `len` rows may decide: those of the rounds that are not closed, and
/// at least two below the greatest.
fn open_places<P: Prefix>(
    alloc: Global,
    p: &P,
    kept: &Kept,
    votes: &VoteTable,
    share: Share,
    len: usize,
) -> Result<Vec<usize>, Memory>
    requires made { IsMadeFor votes.now (P.graph p.now) }
    requires keeps { Keeps (P.graph p.now) kept.now.published }
    requires within { len ≤ length (P.graph p.now).rows }
    ensures { IfOk result (λ places. OpensAll (P.graph p.now) kept.now.published.marks share len places.items) }
{
    let mut places = Vec::new(alloc);
    for before in kept.closed()..p.greatest().saturating_sub(2) {
        let witnesses = p.witnesses(before + 1);
        push_open(kept, votes, share, len, witnesses, &mut places)?;
    }
    Ok(places)
}

/// What a share may still decide in a graph; `None` where it has all its marks.
pub fn open_in(
    alloc: Global,
    graph: &EventGraph,
    kept: &Kept,
    votes: &mut VoteTable,
    share: Share,
) -> Result<Option<Open>, Memory>
    requires made { IsMadeFor votes.old graph.now.graph }
    requires keeps { Keeps graph.now.graph kept.now.published }
    ensures same { votes.new ≡ votes.old }
    ensures opens { IfOk result (Opens graph.now.graph kept.now.published.marks share) }
{
    let rows = graph.len();
    let places = open_places(alloc, graph, kept, votes, share, rows)?;
    if places.is_empty() {
        return Ok(None);
    }
    let table = votes.shared(alloc)?;
    let frozen = graph.freeze()?;
    Ok(Some(Open {
        graph: frozen,
        votes: table,
        places,
    }))
}

/// What a share decides in the first `len` rows of a graph, but for what has its mark.
pub fn found_in(
    alloc: Global,
    graph: &EventGraph,
    kept: &Kept,
    votes: &mut VoteTable,
    len: usize,
    share: Share,
) -> Result<Found, Memory>
    requires made { IsMadeFor votes.old graph.now.graph }
    requires keeps { Keeps graph.now.graph kept.now.published }
    requires within { len ≤ length graph.now.graph.rows }
    ensures made { IsMadeFor votes.new graph.now.graph }
    ensures news { IfOk result (FindsNewsOf graph.now.graph kept.now.published.marks) }
    ensures unmarked { IfOk result (AreUnmarked kept.now.published.marks) }
    ensures len { IfOk result (λ found. found.len ≡ len) }
    ensures share { IfOk result (λ found. found.share ≡ share) }
{
    let places = open_places(alloc, graph, kept, votes, share, len)?;
    elect_first(alloc, graph, votes, share, len, places.as_slice())
}
