ghost use Rattle.std.specs.Prelude.{◌≡◌, ℕ, ◌<◌, ◌≤◌, ◌&&◌, ◌==◌, length, IfOk};
ghost use Rattle.hg_model.specs.Stakes.{stake_where};
ghost use Rattle.hg_model.specs.Links.{creator};
ghost use Rattle.hg_model.specs.Seeing.{sees, sees_through, strongly_sees};
ghost use Rattle.hg_model.specs.GraphWords.{strongly_sees_in, sees_in};
ghost use Rattle.hg_plain_graph.specs.Held.{IsStrongColumn, IsStrongTable, IsThroughColumn, IsThroughTable};
ghost use Rattle.hg_plain_graph.specs.Tables.{cell_at, column_at};

use crate::ancestry::{By, any_parent};
use crate::links::creator_of;
use crate::seeing::Seeing;
use crate::tables::cell;
use hg_model::{Memory, is_supermajority};
use std::alloc::Global;

/// For each row the rows that strongly see it.
pub fn strong_columns(alloc: Global, seeing: &Seeing) -> Result<Vec<Vec<bool>>, Memory>
    ensures { IfOk result (λ v. IsStrongTable seeing.now v.items) }
{
    let len = seeing.ancestry().links().len();
    let mut columns = Vec::with_capacity(alloc, len)?;
    for y in 0..len {
        columns.push(strong_column(alloc, seeing, y)?)?;
    }
    Ok(columns)
}

/// The rows that strongly see row `y`.
#[tactic(auto, using(crate::proofs::TableLaws::table_steps))]
fn strong_column(alloc: Global, seeing: &Seeing, y: usize) -> Result<Vec<bool>, Memory>
    requires { y < length seeing.now.links }
    ensures { IfOk result (λ v. IsStrongColumn seeing.now y v.items) }
{
    let through = through_columns(alloc, seeing, y)?;
    let len = seeing.ancestry().links().len();
    let mut column = Vec::with_capacity(alloc, len)?;
    for x in 0..len {
        column.push(is_strong(seeing, &through, x, y))?;
    }
    Ok(column)
}

/// Whether the members with an event among the ancestors of row `x` that sees row `y` have more than two thirds of the
/// stake.
#[tactic(auto, unfolding(hg_model::specs::Seeing::strongly_sees))]
fn is_strong(seeing: &Seeing, through: &[Vec<bool>], x: usize, y: usize) -> bool
    requires place { x < length seeing.now.links }
    requires known { IsThroughTable seeing.now y through.now }
    ensures { result ≡ strongly_sees_in seeing.now x y }
{
    is_supermajority(seeing.total(), weigh_through(through, seeing.stakes(), x))
}

/// What the members weigh whose columns hold row `x`.
#[tactic(auto, using(hg_model::proofs::PlacesLaws::weight_steps))]
fn weigh_through(through: &[Vec<bool>], stakes: &[u32], x: usize) -> u64
    requires few { length stakes.now ≤ 128 }
    requires columns { length stakes.now ≤ length through.now }
    requires place { (m : ℕ) → m < length stakes.now → x < length (column_at through.now m) }
    ensures { result ≡ stake_where stakes.now (cell_at through.now x) }
{
    let mut weight = 0;
    for member in 0..stakes.len() {
        if cell(through, x, member) {
            weight += u64::from(stakes[member]);
        }
    }
    weight
}

/// For each member the rows that see row `y` through it.
fn through_columns(alloc: Global, seeing: &Seeing, y: usize) -> Result<Vec<Vec<bool>>, Memory>
    requires { y < length seeing.now.links }
    ensures { IfOk result (λ v. IsThroughTable seeing.now y v.items) }
{
    let mut columns = Vec::new(alloc);
    for member in 0..seeing.stakes().len() as u32 {
        columns.push(through_column(alloc, seeing, y, member)?)?;
    }
    Ok(columns)
}

/// The rows among whose ancestors the member has an event that sees row `y`.
#[tactic(auto, using(crate::proofs::TableLaws::table_steps))]
fn through_column(
    alloc: Global,
    seeing: &Seeing,
    y: usize,
    member: u32,
) -> Result<Vec<bool>, Memory>
    requires { y < length seeing.now.links }
    ensures { IfOk result (λ v. IsThroughColumn seeing.now y member (length seeing.now.links) v.items) }
{
    let len = seeing.ancestry().links().len();
    let mut column = Vec::with_capacity(alloc, len)?;
    for x in 0..len {
        column.push(next_through(seeing, &column, x, y, member))?;
    }
    Ok(column)
}

/// Whether the member has an event among the ancestors of row `x` that sees row `y`,
/// where `column` tells it of the rows before `x`.
fn next_through(seeing: &Seeing, column: &[bool], x: usize, y: usize, member: u32) -> bool
    requires place { x < length seeing.now.links }
    requires seen { y < length seeing.now.links }
    requires known { IsThroughColumn seeing.now y member x column.now }
    ensures { result ≡ sees_through seeing.now.links x y member }
{
    let links = seeing.ancestry().links();
    is_seen_by(seeing, x, y, member) || any_parent(By::Parents, links, column, x)
}

/// Whether row `x` is by the member and sees row `y`.
fn is_seen_by(seeing: &Seeing, x: usize, y: usize, member: u32) -> bool
    requires place { x < length seeing.now.links }
    requires seen { y < length seeing.now.links }
    ensures { result ≡ (creator seeing.now.links x == member && sees_in seeing.now x y) }
{
    u32::from(creator_of(seeing.ancestry().links(), x)) == member && seeing.sees(x, y)
}
