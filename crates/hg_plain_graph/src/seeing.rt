ghost use Rattle.std.specs.Prelude.{◌≡◌, ◌<◌, ◌≤◌, ◌^◌, ◌&&◌, ◌==◌, false, length, IfOk};
ghost use Rattle.hg_model.specs.Links.{creator, links};
ghost use Rattle.hg_model.specs.Graph.{IsShaped};
ghost use Rattle.hg_model.specs.Ancestry.{is_ancestor, some_ancestor};
ghost use Rattle.hg_model.specs.Forks.{has_fork, has_fork_below, is_fork};
ghost use Rattle.hg_model.specs.GraphWords.{IsShapedIn, sees_in};
ghost use Rattle.hg_plain_graph.specs.Held.{IsForkTable};
ghost use Rattle.hg_plain_graph.specs.Tables.{IsTableOf};

use crate::ancestry::Ancestry;
use crate::forks::has_fork;
use crate::links::{creator_of, links_of};
use crate::tables::cell;
use hg_bits::sum_stakes;
use hg_model::{Memory, Row};
use std::alloc::Global;
use std::marker::Model;

/// The ancestry of a shaped graph, and below which rows a member has a fork.
#[derive(Drop)]
pub struct Seeing {
    stakes: Vec<u32>,
    /// The sum of these.
    total: u64,
    ancestry: Ancestry,
    /// For each member its column: below which rows it has a fork.
    forked: Vec<Vec<bool>>,
}

impl Model for Seeing {
    ghost use Rattle.hg_model.specs.Shape.{Shape, shape_of};
    ghost use Rattle.hg_plain_graph.specs.Held.{HoldsForkTable};

    ghost Value = { Shape };

    ghost view = { λ s. shape_of s.stakes.items s.ancestry };

    ghost invariant = { λ s. HoldsForkTable s.stakes.items s.total s.ancestry s.forked.items };
}

impl Seeing {
    ghost use Rattle.hg_model.specs.Stakes.{member_count, total};
    ghost use Rattle.hg_model.specs.Seeing.{sees};
    ghost use Rattle.hg_model.specs.Shape.{shape_of};

    pub fn new(alloc: Global, rows: &[Row], stakes: &[u32]) -> Result<Seeing, Memory>
        requires shaped { IsShaped stakes.now (links rows.now) }
        requires few { length stakes.now ≤ 128 }
        ensures { IfOk result (λ s. s ≡ shape_of stakes.now (links rows.now)) }
    {
        let ancestry = Ancestry::new(alloc, links_of(alloc, rows)?)?;
        let forked = forked_columns(alloc, rows, &ancestry, stakes)?;
        Ok(Seeing {
            stakes: Vec::from_slice(alloc, stakes)?,
            total: sum_stakes(stakes),
            ancestry,
            forked,
        })
    }

    /// The stake of each member.
    pub fn stakes(&self) -> &[u32]
        ensures value { result.now ≡ self.now.members }
        ensures few { length result.now ≤ 128 }
        ensures shaped { IsShapedIn self.now }
    {
        &self.stakes
    }

    /// The stake of all members.
    pub fn total(&self) -> u64
        ensures value { result ≡ total self.now.members }
        ensures low { result ≤ 2 ^ 39 }
    {
        self.total
    }

    pub fn ancestry(&self) -> &Ancestry
        ensures value { result.now ≡ self.now.links }
        ensures shaped { IsShapedIn self.now }
    {
        &self.ancestry
    }

    /// Whether row `x` sees row `y`.
    #[tactic(auto, unfolding(hg_model::specs::Seeing::sees))]
    pub fn sees(&self, x: usize, y: usize) -> bool
        requires left { x < length self.now.links }
        requires right { y < length self.now.links }
        ensures { result ≡ sees_in self.now x y }
    {
        self.ancestry.is_ancestor(x, y) && !self.is_forked(x, y)
    }

    /// Whether the creator of row `y` has a fork below row `x`.
    fn is_forked(&self, x: usize, y: usize) -> bool
        requires left { x < length self.now.links }
        requires right { y < length self.now.links }
        ensures { result ≡ has_fork_below self.now.links x (creator self.now.links y) }
    {
        let creator = creator_of(self.ancestry.links(), y);
        cell(&self.forked, x, usize::from(creator))
    }
}

/// For each member the rows below which it has a fork.
fn forked_columns(
    alloc: Global,
    rows: &[Row],
    ancestry: &Ancestry,
    stakes: &[u32],
) -> Result<Vec<Vec<bool>>, Memory>
    requires shaped { IsShaped stakes.now (links rows.now) }
    requires few { length stakes.now ≤ 128 }
    requires same { ancestry.now ≡ links rows.now }
    ensures { IfOk result (λ v. IsForkTable stakes.now ancestry.now v.items) }
{
    let mut columns = Vec::new(alloc);
    for member in 0..stakes.len() as u32 {
        columns.push(forked_column(alloc, ancestry, member, has_fork(rows, member))?)?;
    }
    Ok(columns)
}

/// The rows below which the member has a fork; none where it `has` none at all.
#[tactic(auto, using(crate::proofs::TableLaws::table_steps))]
fn forked_column(
    alloc: Global,
    ancestry: &Ancestry,
    member: u32,
    has: bool,
) -> Result<Vec<bool>, Memory>
    requires { has ≡ has_fork ancestry.now member }
    ensures { IfOk result (λ v. IsTableOf false (λ x. has_fork_below ancestry.now x member) (length ancestry.now) v.items) }
{
    let len = ancestry.links().len();
    let mut column = Vec::with_capacity(alloc, len)?;
    for x in 0..len {
        column.push(next_forked(ancestry, x, member, has))?;
    }
    Ok(column)
}

fn next_forked(ancestry: &Ancestry, x: usize, member: u32, has: bool) -> bool
    requires place { x < length ancestry.now }
    requires known { has ≡ has_fork ancestry.now member }
    requires short { length ancestry.now < 2 ^ 64 }
    ensures { result ≡ has_fork_below ancestry.now x member }
{
    has && has_fork_below(ancestry, x, member)
}

/// Whether the ancestors of row `x` hold a fork by the member.
#[tactic(auto, using(hg_model::proofs::PlacesLaws::some_steps), unfolding(hg_model::specs::Forks::has_fork_below))]
fn has_fork_below(ancestry: &Ancestry, x: usize, member: u32) -> bool
    requires place { x < length ancestry.now }
    requires short { length ancestry.now < 2 ^ 64 }
    ensures { result ≡ has_fork_below ancestry.now x member }
{
    for a in 0..x + 1 {
        if is_fork_side(ancestry, x, member, a) {
            return true;
        }
    }
    false
}

/// Whether row `a` is an ancestor of row `x`, and so is a row that is a fork by the member with it.
fn is_fork_side(ancestry: &Ancestry, x: usize, member: u32, a: usize) -> bool
    requires place { x < length ancestry.now }
    requires side { a < length ancestry.now }
    requires short { length ancestry.now < 2 ^ 64 }
    ensures { result ≡ (is_ancestor ancestry.now x a && some_ancestor ancestry.now x (is_fork ancestry.now member a)) }
{
    ancestry.is_ancestor(x, a) && has_other_side(ancestry, x, member, a)
}

/// Whether the ancestors of row `x` hold a row that is a fork by the member with row `a`.
#[tactic(auto, using(hg_model::proofs::PlacesLaws::some_steps))]
fn has_other_side(ancestry: &Ancestry, x: usize, member: u32, a: usize) -> bool
    requires place { x < length ancestry.now }
    requires side { a < length ancestry.now }
    requires short { length ancestry.now < 2 ^ 64 }
    ensures { result ≡ some_ancestor ancestry.now x (is_fork ancestry.now member a) }
{
    if !is_by(ancestry, member, a) {
        return false;
    }
    for b in 0..x + 1 {
        if is_other_side(ancestry, x, member, a, b) {
            return true;
        }
    }
    false
}

fn is_other_side(ancestry: &Ancestry, x: usize, member: u32, a: usize, b: usize) -> bool
    requires place { x < length ancestry.now }
    requires side { a < length ancestry.now }
    requires other { b < length ancestry.now }
    ensures { result ≡ (is_ancestor ancestry.now x b && is_fork ancestry.now member a b) }
{
    ancestry.is_ancestor(x, b) && is_fork(ancestry, member, a, b)
}

/// Whether rows `a` and `b` are a fork by the member.
#[tactic(auto, unfolding(hg_model::specs::Forks::is_fork))]
fn is_fork(ancestry: &Ancestry, member: u32, a: usize, b: usize) -> bool
    requires side { a < length ancestry.now }
    requires other { b < length ancestry.now }
    ensures { result ≡ is_fork ancestry.now member a b }
{
    is_by(ancestry, member, a)
        && is_by(ancestry, member, b)
        && !ancestry.is_self_ancestor(a, b)
        && !ancestry.is_self_ancestor(b, a)
}

fn is_by(ancestry: &Ancestry, member: u32, x: usize) -> bool
    requires { x < length ancestry.now }
    ensures { result ≡ (creator ancestry.now x == member) }
{
    u32::from(creator_of(ancestry.links(), x)) == member
}
