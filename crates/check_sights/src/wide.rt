//! A graph that grows past the rows whose counts and first descendants have 16 bits.

use crate::growing::{Made, add, add_all};
use crate::telling::equal;
use hg_branches::BranchSight;
use hg_model::{Counts, Growing, Member, Memory, Sight};

/// Past the greatest number of 16 bits. The counts of the first 65,472 rows have 16 bits.
const ROWS: usize = 65_700;

/// The first rows of both members.
const FIRST: [Made; 2] = [(0, &[]), (1, &[])];

/// Adds the rows from this place on, by both members in turn, each on both rows before it, and marks every 64th.
fn add_in_turn(sight: &mut BranchSight, from: usize) -> Result<bool, Memory> {
    for i in from.max(2)..ROWS {
        if !add(sight, &[i - 2, i - 1], (i % 2) as Member)? {
            return Ok(false);
        }
        if i % 64 == 0 {
            sight.mark_last();
        }
    }
    Ok(true)
}

/// A row is strongly seen by each row behind it, of which the first is the other member's, and not by itself.
fn tells_both_sides(sight: &BranchSight) -> bool {
    if sight.rows() != ROWS {
        return false;
    }
    for k in 1_021..1_026 {
        let y = 64 * k;
        if sight.strongly_sees(y, y)
            || !sight.strongly_sees(y + 1, y)
            || !sight.strongly_sees(ROWS - 1, y)
        {
            return false;
        }
    }
    true
}

/// Whether row `x` counts in 16 bits.
fn is_narrow(sight: &BranchSight, x: usize) -> bool {
    x < sight.rows() && matches!(sight.counts(x), Some(Counts::Narrow(_)))
}

/// Whether row `x` counts in 32 bits.
fn is_wide(sight: &BranchSight, x: usize) -> bool {
    x < sight.rows() && matches!(sight.counts(x), Some(Counts::Wide(_)))
}

/// The first rows of the graph with the others added again, or the graph of no rows where there are not so many.
fn grown_again(sight: &BranchSight, len: usize) -> Result<BranchSight, Memory> {
    let len = len.min(sight.rows());
    let mut first = sight.prefix(len)?;
    add_in_turn(&mut first, len)?;
    Ok(first)
}

#[test]
fn grows_past_the_rows_of_16_bits(rt: HostRuntime) -> Result<(), Memory> {
    let mut sight = BranchSight::new(rt.alloc(), &[1, 1])?;
    let told = [
        add_all(&mut sight, &FIRST)?,
        add_in_turn(&mut sight, 2)?,
        tells_both_sides(&sight),
        is_narrow(&sight, 65_471),
        is_wide(&sight, 65_472),
        tells_both_sides(&grown_again(&sight, 65_480)?),
    ];
    equal(&rt, 0, told, [true; 6]);
    Ok(())
}
