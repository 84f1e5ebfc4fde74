ghost use Rattle.std.specs.Prelude.{◌≡◌, ◌<◌, length, refl};
ghost use Rattle.hg_blocks.specs.Joined.{IsSplit, joined};
ghost use Rattle.hg_model.specs.Links.{links};
ghost use Rattle.hg_model.specs.Prefix.{graph_of};
ghost use Rattle.hg_model.specs.Shape.{shape_of};
ghost use Rattle.hg_model.specs.Standings.{standings_of};
ghost use Rattle.hg_model.specs.GraphWords.{standings_in, shape_in};

use crate::shared::{RowBlock, RowTail, SharedEvent};
use hg_blocks::Blocks;
use hg_model::{Counts, Member, Prefix, Rounds, Row, Sight};
use std::marker::Model;
use std::sync::Arc;

/// Rows of a graph, with their sight and their rounds.
pub struct Frozen<S: Sight, R: Rounds> {
    coin: u32,
    rows: Blocks<SharedEvent>,
    sight: S,
    rounds: R,
}

// Written out, so that the drop of a frozen graph is a call, which is proved once.
impl<S: Sight + Drop, R: Rounds + Drop> Drop for Frozen<S, R> {
    fn drop(self) {
        let Frozen {
            coin: _,
            rows,
            sight,
            rounds,
        } = self;
        drop(rows);
        drop(sight);
        drop(rounds);
    }
}

impl<S: Sight, R: Rounds> Model for Frozen<S, R> {
    ghost use Rattle.hg_model.specs.Prefix.{IsOfGraph, graph_of};
    ghost use Rattle.hg_frozen.specs.View.{FrozenView};

    ghost Value = { FrozenView };

    ghost view = { λ s. record { graph = graph_of (S.shape s.sight).members s.coin s.rows.items; sealed = s.rows.sealed; tail = s.rows.tail } };

    ghost invariant = { λ s. IsOfGraph (S.shape s.sight) (R.standings s.rounds) (graph_of (S.shape s.sight).members s.coin s.rows.items) };
}

impl<S: Sight, R: Rounds> Frozen<S, R> {
    /// The rows of these blocks and then those of the tail, with the sight and the rounds of just them, and the coin period in
    /// rounds. Takes no memory.
    pub fn of(
        blocks: Vec<Arc<RowBlock>>,
        tail: RowTail,
        sight: S,
        rounds: R,
        coin: u32,
    ) -> Frozen<S, R>
        requires sight { S.shape sight ≡ shape_of (S.shape sight).members (links (joined blocks.items tail)) }
        requires rounds { R.standings rounds ≡ standings_of (S.shape sight).members (links (joined blocks.items tail)) }
        requires coin { 2 < coin }
        ensures graph { result.graph ≡ graph_of (S.shape sight).members coin (joined blocks.items tail) }
        ensures sealed { result.sealed ≡ length blocks.items }
        ensures tail { result.tail ≡ length tail }
    {
        let len = sight.rows();
        Frozen {
            coin,
            rows: Blocks::of(blocks, tail, len),
            sight,
            rounds,
        }
    }

    /// How many rows there are.
    pub fn len(&self) -> usize
        ensures { result ≡ length self.now.graph.rows }
    {
        self.rows.len()
    }

    /// How many blocks of 64 rows are shared.
    pub fn sealed(&self) -> usize
        ensures value { result ≡ self.now.sealed }
        ensures split { IsSplit (length self.now.graph.rows) self.now.sealed self.now.tail }
    {
        self.rows.sealed()
    }

    /// How many rows stand behind those blocks.
    pub fn tail_len(&self) -> usize
        ensures value { result ≡ self.now.tail }
        ensures split { IsSplit (length self.now.graph.rows) self.now.sealed self.now.tail }
    {
        self.rows.tail_len()
    }
}

impl<S: Sight, R: Rounds> Sight for Frozen<S, R> {
    ghost shape = { λ f. shape_in f.graph };

    fn rows(&self) -> usize {
        self.sight.rows()
    }

    fn members(&self) -> u32 {
        self.sight.members()
    }

    fn stake(&self, member: Member) -> u32 {
        self.sight.stake(member)
    }

    fn total(&self) -> u64 {
        self.sight.total()
    }

    fn even(&self) -> Option<u32> {
        self.sight.even()
    }

    fn creator(&self, x: usize) -> Member {
        self.sight.creator(x)
    }

    fn self_parent(&self, x: usize) -> Option<usize> {
        self.sight.self_parent(x)
    }

    fn ancestor(&self, x: usize, y: usize) -> bool {
        self.sight.ancestor(x, y)
    }

    fn sees(&self, x: usize, y: usize) -> bool {
        self.sight.sees(x, y)
    }

    fn strongly_sees(&self, x: usize, y: usize) -> bool {
        self.sight.strongly_sees(x, y)
    }

    fn counts(&self, x: usize) -> Option<Counts<'_>> {
        self.sight.counts(x)
    }
}

impl<S: Sight, R: Rounds> Rounds for Frozen<S, R> {
    ghost standings = { λ f. standings_in (shape_in f.graph) };

    fn round(&self, x: usize) -> u32 {
        self.rounds.round(x)
    }

    fn is_witness(&self, x: usize) -> bool {
        self.rounds.is_witness(x)
    }

    fn witnesses(&self, r: u32) -> &[usize] {
        self.rounds.witnesses(r)
    }

    fn greatest(&self) -> u32 {
        self.rounds.greatest()
    }
}

impl<S: Sight, R: Rounds> Prefix for Frozen<S, R> {
    ghost graph = { λ f. f.graph };

    ghost sees_graph = { λ f. refl };

    ghost has_rounds = { λ f. refl };

    fn row(&self, x: usize) -> &Row {
        self.rows[x].row()
    }

    fn coin(&self) -> u32 {
        self.coin
    }
}
