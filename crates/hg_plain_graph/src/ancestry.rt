ghost use Rattle.std.specs.Prelude.{◌≡◌, ◌<◌, ◌≤◌, length, slice_index_or, false, IfOk};
ghost use Rattle.std.specs.List.{AllByRecursion, list_any};
ghost use Rattle.hg_model.specs.Places.{IsEarlier};
ghost use Rattle.hg_model.specs.Links.{parents};
ghost use Rattle.hg_model.specs.Ancestry.{is_ancestor, is_self_ancestor};
ghost use Rattle.hg_plain_graph.specs.By.{IsAncestorTable, is_ancestor_by, parents_by};
ghost use Rattle.hg_plain_graph.specs.Tables.{IsTableOf};

use crate::links::{PlainLink, parents_of, self_parent_of};
use crate::tables::cell;
use hg_model::Memory;
use std::alloc::Global;
use std::marker::Model;

/// By which parents an ancestor is reached.
#[derive(Clone, Copy)]
pub enum By {
    /// By all.
    Parents,
    /// By the self-parent alone.
    SelfParent,
}

/// The links of the rows, and which rows are ancestors and self-ancestors of which.
#[derive(Drop)]
pub struct Ancestry {
    links: Vec<PlainLink>,
    /// For each row its column: which rows have it as ancestor.
    ancestors: Vec<Vec<bool>>,
    self_ancestors: Vec<Vec<bool>>,
}

impl Model for Ancestry {
    ghost use Rattle.std.specs.Prelude.{List};
    ghost use Rattle.hg_model.specs.Links.{Link};
    ghost use Rattle.hg_plain_graph.specs.Held.{HoldsAncestry};

    ghost Value = { List Link };

    ghost view = { λ s. s.links.items };

    ghost invariant = { λ s. HoldsAncestry s.links.items s.ancestors.items s.self_ancestors.items };
}

impl Ancestry {
    pub fn new(alloc: Global, links: Vec<PlainLink>) -> Result<Ancestry, Memory>
        requires { IsEarlier (parents links.items) }
        ensures { IfOk result (λ s. s ≡ links.items) }
    {
        let ancestors = ancestor_columns(alloc, By::Parents, &links)?;
        let self_ancestors = ancestor_columns(alloc, By::SelfParent, &links)?;
        Ok(Ancestry {
            links,
            ancestors,
            self_ancestors,
        })
    }

    pub fn links(&self) -> &[PlainLink]
        ensures { result.now ≡ self.now }
    {
        &self.links
    }

    pub fn is_ancestor(&self, x: usize, y: usize) -> bool
        requires left { x < length self.now }
        requires right { y < length self.now }
        ensures { result ≡ is_ancestor self.now x y }
    {
        cell(&self.ancestors, x, y)
    }

    pub fn is_self_ancestor(&self, x: usize, y: usize) -> bool
        requires left { x < length self.now }
        requires right { y < length self.now }
        ensures { result ≡ is_self_ancestor self.now x y }
    {
        cell(&self.self_ancestors, x, y)
    }
}

/// Whether some parent of row `x` passes the test that `column` holds.
pub fn any_parent(by: By, links: &[PlainLink], column: &[bool], x: usize) -> bool
    requires earlier { IsEarlier (parents links.now) }
    requires place { x < length links.now }
    requires known { x ≤ length column.now }
    ensures { result ≡ list_any (λ p. slice_index_or column.now p false) (parents_by by links.now x) }
{
    match by {
        By::Parents => holds_any(column, parents_of(links, x)),
        By::SelfParent => match self_parent_of(links, x) {
            None => false,
            Some(self_place) => column[self_place],
        },
    }
}

/// Whether the column holds some of these places.
fn holds_any(column: &[bool], places: &[usize]) -> bool
    requires { AllByRecursion (λ p. p < length column.now) places.now }
    ensures { result ≡ list_any (λ p. slice_index_or column.now p false) places.now }
{
    for place in places {
        if column[*place] {
            return true;
        }
    }
    false
}

/// Whether row `x` has row `y` as ancestor, where `column` tells it of the rows before `x`.
fn next_ancestor(by: By, links: &[PlainLink], column: &[bool], x: usize, y: usize) -> bool
    requires earlier { IsEarlier (parents links.now) }
    requires place { x < length links.now }
    requires known { IsTableOf false (λ k. is_ancestor_by by links.now k y) x column.now }
    ensures { result ≡ is_ancestor_by by links.now x y }
{
    x == y || any_parent(by, links, column, x)
}

/// The rows that have row `y` as ancestor.
#[tactic(auto, using(crate::proofs::TableLaws::table_steps))]
fn ancestor_column(
    alloc: Global,
    by: By,
    links: &[PlainLink],
    y: usize,
) -> Result<Vec<bool>, Memory>
    requires { IsEarlier (parents links.now) }
    ensures { IfOk result (λ v. IsTableOf false (λ x. is_ancestor_by by links.now x y) (length links.now) v.items) }
{
    let mut column = Vec::with_capacity(alloc, links.len())?;
    for x in 0..links.len() {
        column.push(next_ancestor(by, links, &column, x, y))?;
    }
    Ok(column)
}

/// For each row the rows that have it as ancestor.
fn ancestor_columns(alloc: Global, by: By, links: &[PlainLink]) -> Result<Vec<Vec<bool>>, Memory>
    requires { IsEarlier (parents links.now) }
    ensures { IfOk result (λ v. IsAncestorTable by links.now v.items) }
{
    let mut columns = Vec::with_capacity(alloc, links.len())?;
    for y in 0..links.len() {
        columns.push(ancestor_column(alloc, by, links, y)?)?;
    }
    Ok(columns)
}
