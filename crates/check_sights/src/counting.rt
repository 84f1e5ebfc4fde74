ghost use Rattle.std.specs.Prelude.{◌<◌, ◌≤◌, length};

use crate::growing::add;
use crate::telling::{equal, holds};
use hg_branches::BranchSight;
use hg_model::{Growing, Member, Memory, Sight};
use std::alloc::Global;
use std::process::Abort;

/// Of two members, A and B, whose own branches are 0 and 1: of each row its parents and its branch. A goes on twice on
/// its first row after that has a child, by rows 4 and 8, which open branches 2 and 3.
const ROWS: [(&[usize], usize); 12] = [
    (&[], 0),
    (&[], 1),
    (&[0, 1], 0),
    (&[1, 2], 1),
    (&[0, 1], 2),
    (&[3, 4], 1),
    (&[4, 3], 2),
    (&[2, 3], 0),
    (&[0, 5], 3),
    (&[5, 7], 1),
    (&[9, 8], 1),
    (&[8, 10], 3),
];

/// One more than the last place that each row has among its ancestors on branches 0 to 3.
const COUNTS: [[usize; 4]; 12] = [
    [1, 0, 0, 0],
    [0, 2, 0, 0],
    [3, 2, 0, 0],
    [3, 4, 0, 0],
    [1, 2, 5, 0],
    [3, 6, 5, 0],
    [3, 4, 7, 0],
    [8, 4, 0, 0],
    [3, 6, 5, 9],
    [8, 10, 5, 0],
    [8, 11, 5, 9],
    [8, 11, 5, 12],
];

/// Who made the row: B those of branch 1.
fn maker(x: usize) -> Member
    requires { x < 12 }
{
    if ROWS[x].1 == 1 { 1 } else { 0 }
}

/// Whether the sight gives the numbers of the members' own branches: it does while no member has a fork.
fn is_counted(sight: &BranchSight, x: usize) -> bool
    requires place { x < length sight.now.shape.links }
    requires few { x < 12 }
{
    match sight.counts(x) {
        None => 4 <= x,
        Some(counts) => {
            x < 4
                && counts.len() == 2
                && counts.at(0) == COUNTS[x][0]
                && counts.at(1) == COUNTS[x][1]
        }
    }
}

/// Adds a row.
fn grow(rt: &impl Abort, sight: &mut BranchSight, x: usize) -> Result<(), Memory>
    requires { x < 12 }
{
    holds(rt, x, add(sight, ROWS[x].0, maker(x))?);
    assert!(rt; x < sight.rows());
    holds(rt, x, is_counted(sight, x));
    Ok(())
}

/// The sight has so many rows, and each number of them: row `y` is an ancestor where it is below the number of its
/// branch.
fn matches(rt: &impl Abort, sight: &BranchSight, len: usize) {
    assert!(rt; sight.rows() == len && len <= 12);
    for x in 0..len {
        for y in 0..len {
            let is_below = y < COUNTS[x][ROWS[y].1 % 4];
            equal(rt, x, sight.ancestor(x, y), is_below);
        }
    }
}

fn forked(rt: &impl Abort, alloc: Global) -> Result<BranchSight, Memory> {
    let mut sight = BranchSight::new(alloc, &[1; 2])?;
    for x in 0..12 {
        grow(rt, &mut sight, x)?;
    }
    Ok(sight)
}

/// The sight of the first rows has them, and each number of them.
fn first_match(rt: &impl Abort, sight: &BranchSight, len: usize) -> Result<(), Memory>
    requires { len ≤ length sight.now.shape.links }
{
    matches(rt, &sight.prefix(len)?, len);
    Ok(())
}

/// So do all such sights.
fn all_firsts_match(rt: &impl Abort, sight: &BranchSight) -> Result<(), Memory> {
    for len in 0..13 {
        assert!(rt; len <= sight.rows());
        first_match(rt, sight, len)?;
    }
    Ok(())
}

#[test]
fn counts_the_last_ancestor_on_each_branch(rt: HostRuntime) -> Result<(), Memory> {
    let sight = forked(&rt, rt.alloc())?;
    matches(&rt, &sight, 12);
    all_firsts_match(&rt, &sight)
}
