ghost use Rattle.std.specs.Prelude.{◌≡◌, ◌<◌, ◌≤◌, ◌-◌, ◌^◌, Some, length, slice_get};
ghost use Rattle.hg_model.specs.Stakes.{member_count};
ghost use Rattle.hg_model.specs.Prefix.{Graph, IsOfGraph, links_of};
ghost use Rattle.hg_model.specs.GraphWords.{standings_in, shape_in, IsShapedIn};

use crate::rounds::Rounds;
use crate::row::Row;
use crate::sight::Sight;

/// The first rows of a node's graph, with what they see of each other and their rounds.
pub trait Prefix: Sight + Rounds {
    /// The rows, the stakes of the members, and the coin period.
    ghost graph: { Self → Graph };

    /// The row at a place below the number of rows.
    fn row(&self, x: usize) -> &Row
        requires { x < length (graph self.now).rows }
        ensures { slice_get (graph self.now).rows x ≡ Some result.now };

    /// The coin period, in rounds: at least 3.
    fn coin(&self) -> u32
        ensures value { result ≡ (graph self.now).coin }
        ensures matches { IsOfGraph (Self.shape self.now) (Self.standings self.now) (graph self.now) };

    /// It sees what the graph's rows see of each other.
    ghost sees_graph: { (p : Self) → Self.shape p ≡ shape_in (graph p) };

    /// Its rounds are the graph's.
    ghost has_rounds: { (p : Self) → Self.standings p ≡ standings_in (shape_in (graph p)) };
}

/// A law: what a prefix sees and its rounds are those of its rows, which make a shaped graph of at most 128 members and
/// are fewer than 2^32 - 1.
pub fn is_of_graph<P: Prefix>(p: &P)
    ensures matches { IsOfGraph (P.shape p.now) (P.standings p.now) (P.graph p.now) }
    ensures shaped { IsShapedIn (shape_in (P.graph p.now)) }
    ensures few { member_count (P.graph p.now).members ≤ 128 }
    ensures long { length (links_of (P.graph p.now)) ≡ length (P.graph p.now).rows }
    ensures links { length (P.shape p.now).links ≡ length (P.graph p.now).rows }
    ensures standings { length (P.standings p.now) ≡ length (P.graph p.now).rows }
    ensures short { length (P.graph p.now).rows < 2 ^ 32 - 1 }
{
    p.coin();
    p.rows();
    p.members();
}
