ghost use Rattle.std.specs.Prelude.{◌≡◌, ◌<◌, ◌≤◌, ◌-◌, ◌^◌, [], Some, length, slice_get, slice_index_or, IfOk, refl};
ghost use Rattle.hg_model.specs.Links.{links};
ghost use Rattle.hg_model.specs.Graph.{IsShaped};
ghost use Rattle.hg_model.specs.Fame.{is_witness_of_round};
ghost use Rattle.hg_model.specs.Prefix.{graph_of};
ghost use Rattle.hg_model.specs.GraphWords.{standings_in, shape_in};
ghost use Rattle.hg_plain.specs.Held.{IsStakeTable, IsWitnessTable, witnesses_of};
ghost use Rattle.hg_model.specs.Stakes.{member_count};

use hg_model::{Items, Member, Memory, Prefix, Rounds, Row, Sight};
use hg_plain_graph::{PlainSight, is_witness_of_round};
use std::alloc::Global;
use std::marker::Model;

/// The rows of a graph with their tables, as the calls that find an order read them.
#[derive(Drop)]
pub struct PlainPrefix<'a> {
    rows: &'a [Row],
    sight: PlainSight,
    coin: u32,
    /// For each round from 0 to the greatest its witnesses.
    witnesses: Vec<Items<usize>>,
    /// For each row the stake of its creator.
    row_stakes: Vec<u32>,
}

impl<'a> Model for PlainPrefix<'a> {
    ghost use Rattle.hg_model.specs.Prefix.{Graph, graph_of};
    ghost use Rattle.hg_plain.specs.Held.{HoldsPrefix};

    ghost Value = { Graph };

    ghost view = { λ s. graph_of s.sight.members s.coin s.rows.now };

    ghost invariant = { λ s. HoldsPrefix s.rows.now s.sight s.coin s.witnesses.items s.row_stakes.items };
}

impl<'a> PlainPrefix<'a> {
    /// The rows with the tables of just them, and the coin period in rounds.
    pub fn new(
        alloc: Global,
        rows: &'a [Row],
        sight: PlainSight,
        coin: u32,
    ) -> Result<PlainPrefix<'a>, Memory>
        requires same { sight.links ≡ links rows.now }
        requires shaped { IsShaped sight.members (links rows.now) }
        requires short { length (links rows.now) < 2 ^ 32 - 1 }
        requires few { member_count sight.members ≤ 128 }
        requires coin { 2 < coin }
        ensures { IfOk result (λ p. p ≡ graph_of sight.members coin rows.now) }
    {
        let witnesses = witness_lists(alloc, &sight)?;
        let row_stakes = row_stakes(alloc, &sight)?;
        Ok(PlainPrefix {
            rows,
            sight,
            coin,
            witnesses,
            row_stakes,
        })
    }

    /// The tables.
    pub fn tables(&self) -> &PlainSight
        ensures { result.now ≡ shape_in self.now }
    {
        &self.sight
    }

    /// For each row the stake of its creator.
    pub fn row_stakes(&self) -> &[u32]
        ensures { IsStakeTable (shape_in self.now) result.now }
    {
        &self.row_stakes
    }
}

/// For each row the stake of its creator.
#[tactic(auto, using(hg_plain_graph::proofs::TableLaws::table_steps))]
fn row_stakes(alloc: Global, sight: &PlainSight) -> Result<Vec<u32>, Memory>
    ensures { IfOk result (λ v. IsStakeTable sight.now v.items) }
{
    let mut stakes = Vec::new(alloc);
    for x in 0..sight.len() {
        stakes.push(sight.stake_at(x))?;
    }
    Ok(stakes)
}

/// The witnesses of each round, from 0 to the greatest.
#[tactic(auto, using(hg_plain_graph::proofs::TableLaws::table_steps))]
fn witness_lists(alloc: Global, sight: &PlainSight) -> Result<Vec<Items<usize>>, Memory>
    ensures { IfOk result (λ v. IsWitnessTable sight.now v.items) }
{
    let mut lists = Vec::new(alloc);
    for r in 0..=sight.greatest() {
        lists.push(witnesses_of(alloc, sight, r)?)?;
    }
    Ok(lists)
}

/// The witnesses of round `r`, in order.
#[tactic(auto, using(hg_model::proofs::PlacesLaws::list_steps), unfolding(crate::specs::Held::witnesses_of))]
fn witnesses_of(alloc: Global, sight: &PlainSight, r: u32) -> Result<Items<usize>, Memory>
    ensures { IfOk result (λ v. v ≡ witnesses_of sight.now.members sight.now.links r) }
{
    let mut witnesses = Vec::new(alloc);
    for y in 0..sight.len() {
        if is_witness_of_round(sight, r, y) {
            witnesses.push(y)?;
        }
    }
    Ok(Items::from_vec(witnesses))
}

/// The list of a round; no witnesses past the last list.
fn witnesses_at(lists: &[Items<usize>], r: usize) -> &[usize]
    ensures { result.now ≡ slice_index_or lists.now r [] }
{
    match lists.get(r) {
        None => &[],
        Some(witnesses) => witnesses.as_slice(),
    }
}

fn row_at(rows: &[Row], x: usize) -> &Row
    requires { x < length rows.now }
    ensures { slice_get rows.now x ≡ Some result.now }
{
    &rows[x]
}

impl<'a> Sight for PlainPrefix<'a> {
    ghost shape = { λ g. shape_in g };

    fn rows(&self) -> usize {
        self.sight.len()
    }

    fn members(&self) -> u32 {
        self.sight.stakes().len() as u32
    }

    fn stake(&self, member: Member) -> u32 {
        self.sight.stakes()[usize::from(member)]
    }

    fn total(&self) -> u64 {
        self.sight.total()
    }

    fn even(&self) -> Option<u32> {
        None
    }

    fn creator(&self, x: usize) -> Member {
        self.sight.creator(x)
    }

    fn self_parent(&self, x: usize) -> Option<usize> {
        self.sight.self_parent(x)
    }

    fn ancestor(&self, x: usize, y: usize) -> bool {
        self.sight.is_ancestor(x, y)
    }

    fn sees(&self, x: usize, y: usize) -> bool {
        self.sight.sees(x, y)
    }

    fn strongly_sees(&self, x: usize, y: usize) -> bool {
        self.sight.strongly_sees(x, y)
    }
}

impl<'a> Rounds for PlainPrefix<'a> {
    ghost standings = { λ g. standings_in (shape_in g) };

    #[tactic(auto, using(hg_model::proofs::StandingLaws::standings_known))]
    fn round(&self, x: usize) -> u32 {
        self.sight.round(x)
    }

    #[tactic(auto, using(hg_model::proofs::StandingLaws::standings_known))]
    fn is_witness(&self, x: usize) -> bool {
        self.sight.is_witness(x)
    }

    fn witnesses(&self, r: u32) -> &[usize] {
        witnesses_at(&self.witnesses, r as usize)
    }

    #[tactic(auto, using(hg_model::proofs::StandingLaws::standings_known))]
    fn greatest(&self) -> u32 {
        self.sight.greatest()
    }
}

impl<'a> Prefix for PlainPrefix<'a> {
    ghost graph = { λ g. g };

    ghost sees_graph = { λ g. refl };

    ghost has_rounds = { λ g. refl };

    fn row(&self, x: usize) -> &Row {
        row_at(self.rows, x)
    }

    fn coin(&self) -> u32 {
        self.coin
    }
}
