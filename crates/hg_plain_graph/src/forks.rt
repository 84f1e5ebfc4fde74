ghost use Rattle.std.specs.Prelude.{◌≡◌, ◌<◌, ◌≤◌, ◌==◌, length};
ghost use Rattle.hg_model.specs.Places.{IsEarlier};
ghost use Rattle.hg_model.specs.Links.{links, parents};
ghost use Rattle.hg_model.specs.Forks.{forkers, has_fork};
ghost use Rattle.hg_model.specs.Graph.{IsShaped};
ghost use Rattle.hg_model.specs.Graph.{creator_at};
ghost use Rattle.hg_plain_graph.specs.Twins.{IsSelfParentBySame, has_twin_before, has_twins, is_same_self_parent, is_twin, is_twin_row};

use hg_model::{Items, Name, Row};

/// How many of the members have a fork: twins tell it, so no table is filled.
/// The time grows with the square of the rows, by a step of two comparisons.
#[tactic(auto, using(hg_model::proofs::PlacesLaws::count_steps), unfolding(hg_model::specs::Forks::forkers))]
pub fn plain_forkers(rows: &[Row], stakes: &[u32]) -> u32
    requires shaped { IsShaped stakes.now (links rows.now) }
    requires few { length stakes.now ≤ 128 }
    ensures { result ≡ forkers stakes.now (links rows.now) }
{
    let mut count = 0;
    for member in 0..stakes.len() as u32 {
        if has_fork(rows, member) {
            count += 1;
        }
    }
    count
}

/// Whether the member has a fork.
pub fn has_fork(rows: &[Row], member: u32) -> bool
    requires earlier { IsEarlier (parents (links rows.now)) }
    requires by_same { IsSelfParentBySame (links rows.now) }
    ensures { result ≡ has_fork (links rows.now) member }
{
    has_twins(rows, member)
}

#[tactic(auto, using(hg_model::proofs::PlacesLaws::some_steps), unfolding(crate::specs::Twins::has_twins))]
fn has_twins(rows: &[Row], member: u32) -> bool
    ensures { result ≡ has_twins rows.now member }
{
    for x in 0..rows.len() {
        if is_by(rows, x, member) && has_twin_before(rows, x) {
            return true;
        }
    }
    false
}

fn is_by(rows: &[Row], x: usize, member: u32) -> bool
    requires { x < length rows.now }
    ensures { result ≡ (creator_at rows.now x == member) }
{
    u32::from(rows[x].creator) == member
}

/// Whether row `x` has a twin among the rows before it.
#[tactic(auto, using(hg_model::proofs::PlacesLaws::some_steps), unfolding(crate::specs::Twins::has_twin_before))]
fn has_twin_before(rows: &[Row], x: usize) -> bool
    requires { x < length rows.now }
    ensures { result ≡ has_twin_before rows.now x }
{
    for y in 0..x {
        if is_twin(rows, x, y) {
            return true;
        }
    }
    false
}

fn is_twin(rows: &[Row], x: usize, y: usize) -> bool
    requires first { x < length rows.now }
    requires second { y < length rows.now }
    ensures { result ≡ is_twin rows.now x y }
{
    is_twin_row(&rows[x], &rows[y])
}

fn is_twin_row(a: &Row, b: &Row) -> bool
    ensures { result ≡ is_twin_row a.now b.now }
{
    a.creator == b.creator && is_same_self_parent(&a.parents, &b.parents)
}

fn is_same_self_parent(a: &Option<(Name, Items<Name>)>, b: &Option<(Name, Items<Name>)>) -> bool
    ensures { result ≡ is_same_self_parent a.now b.now }
{
    match (a, b) {
        (None, None) => true,
        (Some(names), Some(other)) => names.0 == other.0,
        _ => false,
    }
}
