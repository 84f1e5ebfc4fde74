ghost use Rattle.std.specs.Prelude.{◌≤◌, length};

use crate::forking::{BROUGHT, FORKED, Facts, THREE, TWO, tells};
use crate::growing::{Made, add};
use crate::telling::equal;
use hg_branches::BranchSight;
use hg_model::{Growing, Member, Memory, Parents, Sight};
use std::alloc::Global;

/// Whether the sight counts the ancestors of row `x` by member.
fn has_counts(sight: &BranchSight, x: usize) -> bool {
    x < sight.rows() && sight.counts(x).is_some()
}

/// Adds the rows from this place on, and marks each of so many, or none.
fn add_from(
    sight: &mut BranchSight,
    rows: &[Made],
    from: usize,
    every: usize,
) -> Result<bool, Memory> {
    for i in from..rows.len() {
        let (creator, parents) = rows[i];
        if !add(sight, parents, creator)? {
            return Ok(false);
        }
        if every > 0 && i % every == 0 {
            sight.mark_last();
        }
    }
    Ok(true)
}

/// The same is told of the first `len` rows with the others added again.
fn grows_again(
    first: &mut BranchSight,
    rows: &[Made],
    facts: Facts,
    len: usize,
) -> Result<bool, Memory> {
    Ok(add_from(first, rows, len, 1)? && tells(&*first, facts))
}

fn first_grows_again(
    sight: &BranchSight,
    rows: &[Made],
    facts: Facts,
    len: usize,
) -> Result<bool, Memory> {
    let len = len.min(sight.rows());
    let mut first = sight.prefix(len)?;
    grows_again(&mut first, rows, facts, len)
}

fn told_in(
    sight: &mut BranchSight,
    rows: &[Made],
    facts: Facts,
    every: usize,
) -> Result<[bool; 4], Memory> {
    let added = add_from(sight, rows, 0, every)?;
    Ok([
        added && sight.rows() == rows.len(),
        tells(&*sight, facts),
        first_grows_again(&*sight, rows, facts, 4)?,
        first_grows_again(&*sight, rows, facts, 0)?,
    ])
}

/// Whether the rows fit, of which each of so many is marked, and are told of, also where they come again behind the first
/// ones.
fn told(
    alloc: Global,
    stakes: &[u32],
    rows: &[Made],
    facts: Facts,
    every: usize,
) -> Result<[bool; 4], Memory>
    requires { length stakes.now ≤ 128 }
{
    let mut sight = BranchSight::new(alloc, stakes)?;
    told_in(&mut sight, rows, facts, every)
}

// No row, every row, every second or every third one is marked.
#[test]
fn branches_tell_of_each_graph(rt: HostRuntime) -> Result<(), Memory> {
    let alloc = rt.alloc();
    for every in 0..4 {
        equal(
            &rt,
            every,
            told(alloc, &[1; 4], &FORKED, Facts::Forked, every)?,
            [true; 4],
        );
        equal(
            &rt,
            every,
            told(alloc, &[1, 1, 7, 1], &FORKED, Facts::ByStake, every)?,
            [true; 4],
        );
        equal(
            &rt,
            every,
            told(alloc, &[1; 4], &BROUGHT, Facts::Brought, every)?,
            [true; 4],
        );
        equal(
            &rt,
            every,
            told(alloc, &[3, 1, 1], &THREE, Facts::Three, every)?,
            [true; 4],
        );
        equal(
            &rt,
            every,
            told(alloc, &[1; 2], &TWO, Facts::Two, every)?,
            [true; 4],
        );
    }
    Ok(())
}

/// Three members sync in turn, and a fourth now and then. Each row but the first four has the row before it as
/// other-parent.
fn add_turns(sight: &mut BranchSight, fork: bool) -> Result<bool, Memory> {
    let mut last = [0, 1, 2, 3];
    for i in 0..40 {
        let member = if i < 4 {
            i
        } else if i % 7 == 0 {
            3
        } else {
            i % 3
        };
        let parents = if i < 4 {
            Parents::none()
        } else if fork && i == 28 {
            Parents::of(3, i - 1)
        } else {
            Parents::of(last[member], i - 1)
        };
        if !add(sight, parents.as_slice(), member as Member)? {
            return Ok(false);
        }
        sight.mark_last();
        last[member] = i;
    }
    Ok(true)
}

/// From which row on each of the first three is an ancestor: the one by its member has it as self-parent.
const SEEN_FROM: [usize; 3] = [6, 4, 5];

/// Whether row `y` is an ancestor of row `x`: each row but the first four has the row before it as a parent.
fn is_ancestor(x: usize, y: usize) -> bool {
    if x == y {
        return true;
    }
    if y < 3 { SEEN_FROM[y] <= x } else { y < x }
}

/// Whether the counts of row `x` tell whether row `y` is an ancestor.
fn counts_tell(sight: &BranchSight, x: usize, y: usize) -> bool {
    if x >= sight.rows() || y >= sight.rows() {
        return false;
    }
    let member = sight.creator(y);
    match sight.counts(x) {
        None => false,
        Some(counts) => {
            usize::from(member) < counts.len() && (y < counts.at(member)) == is_ancestor(x, y)
        }
    }
}

/// Whether the counts of each row tell its ancestors.
fn counts_agree(sight: &BranchSight) -> bool {
    for x in 0..sight.rows() {
        for y in 0..sight.rows() {
            if !counts_tell(sight, x, y) {
                return false;
            }
        }
    }
    true
}

fn turns_told(sight: &BranchSight, fork: bool) -> bool {
    if fork {
        !has_counts(sight, 39)
    } else {
        counts_agree(sight)
    }
}

fn turns_in(sight: &mut BranchSight, fork: bool) -> Result<[bool; 3], Memory> {
    let added = add_turns(sight, fork)?;
    Ok([added, sight.rows() == 40, turns_told(sight, fork)])
}

fn counts_turns(alloc: Global, fork: bool) -> Result<[bool; 3], Memory> {
    let mut sight = BranchSight::new(alloc, &[1; 4])?;
    turns_in(&mut sight, fork)
}

#[test]
fn counts_while_nobody_forks(rt: HostRuntime) -> Result<(), Memory> {
    equal(&rt, 0, counts_turns(rt.alloc(), false)?, [true; 3]);
    equal(&rt, 1, counts_turns(rt.alloc(), true)?, [true; 3]);
    Ok(())
}
