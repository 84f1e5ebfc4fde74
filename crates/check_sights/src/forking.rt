//! Graphs in which members fork, and what a sight is to tell of them, with values from outside.

use crate::growing::Made;
use hg_model::Sight;

/// The fourth of four members forks on its first row, and the third holds both branches at the end.
pub(crate) const FORKED: [Made; 10] = [
    (2, &[]),
    (0, &[]),
    (3, &[]),
    (3, &[2, 1]),
    (0, &[1, 3]),
    (2, &[0, 4]),
    (1, &[]),
    (3, &[2, 1]),
    (1, &[6, 7]),
    (2, &[5, 8]),
];

/// The fourth of four members forks on its first row. The first member has the one branch and the second the other, and
/// the third, which has neither, goes on with a row of each as other-parents.
pub(crate) const BROUGHT: [Made; 9] = [
    (3, &[]),
    (0, &[]),
    (1, &[]),
    (2, &[]),
    (3, &[0, 1]),
    (3, &[0, 2]),
    (0, &[1, 4]),
    (1, &[2, 5]),
    (2, &[3, 6, 7]),
];

/// Three members, of whom the first weighs 3 of 5: two rows strongly see another by its rows and a second member's, which
/// the first member's alone do not do.
pub(crate) const THREE: [Made; 6] = [
    (0, &[]),
    (1, &[]),
    (2, &[]),
    (0, &[0, 1]),
    (1, &[1, 3]),
    (2, &[2, 4]),
];

/// Two members who sync in turn.
pub(crate) const TWO: [Made; 5] = [(1, &[]), (0, &[]), (0, &[1, 0]), (1, &[0, 2]), (0, &[2, 3])];

/// What is to be told, and of which of the graphs: of `FORKED` with members who weigh alike or of whom the third has 7 of
/// 10, of `BROUGHT`, `THREE` or `TWO`.
#[derive(Clone, Copy)]
pub(crate) enum Facts {
    Forked,
    ByStake,
    Brought,
    Three,
    Two,
}

/// Whether the sight tells these facts.
pub(crate) fn tells<S: Sight>(sight: &S, facts: Facts) -> bool {
    match facts {
        Facts::Forked => {
            has_both_branches(sight) && sees_one_branch(sight) && strongly_sees_two(sight)
        }
        Facts::ByStake => has_both_branches(sight) && strongly_sees_by_stake(sight),
        Facts::Brought => sees_no_branch(sight) && strongly_sees_three(sight),
        Facts::Three => weighs_three_of_five(sight),
        Facts::Two => strongly_sees_in_turn(sight),
    }
}

/// The last row has both branches as ancestors, and does not see the row below them.
fn has_both_branches<S: Sight>(sight: &S) -> bool {
    if sight.rows() != 10 {
        return false;
    }
    for y in 0..10 {
        if !sight.ancestor(9, y) || sight.sees(9, y) != (y != 2 && y != 3 && y != 7) {
            return false;
        }
    }
    true
}

/// Yet it strongly sees that row, through the first rows of the others that do, and the first member's first row, and
/// no other first row.
fn strongly_sees_two<S: Sight>(sight: &S) -> bool {
    sight.rows() == 10
        && sight.sees(4, 2)
        && sight.sees(8, 2)
        && sight.sees(5, 2)
        && sight.strongly_sees(9, 2)
        && sight.strongly_sees(9, 1)
        && !sight.strongly_sees(9, 0)
        && !sight.strongly_sees(9, 6)
}

/// Where the third of the four members has 7 of 10, its own rows are enough to strongly see its first row, and the second
/// member's beside them; the rows of the first and the fourth are not.
fn strongly_sees_by_stake<S: Sight>(sight: &S) -> bool {
    sight.rows() == 10
        && sight.strongly_sees(0, 0)
        && sight.strongly_sees(9, 0)
        && sight.strongly_sees(9, 6)
        && sight.strongly_sees(5, 2)
        && !sight.strongly_sees(4, 2)
        && !sight.strongly_sees(8, 6)
}

/// The third member's second row has one branch alone, and three members strongly see from there on.
fn sees_one_branch<S: Sight>(sight: &S) -> bool {
    sight.rows() == 10
        && sight.sees(5, 3)
        && !sight.ancestor(5, 7)
        && !sight.strongly_sees(4, 2)
        && sight.strongly_sees(5, 2)
        && !sight.strongly_sees(0, 9)
}

/// The last row has all rows as ancestors, and sees none of the fourth member's, of whom each other-parent sees two.
fn sees_no_branch<S: Sight>(sight: &S) -> bool {
    if sight.rows() != 9 {
        return false;
    }
    for y in 0..9 {
        if !sight.ancestor(8, y) || sight.sees(8, y) != (y != 0 && y != 4 && y != 5) {
            return false;
        }
    }
    sight.sees(6, 0) && sight.sees(6, 4) && sight.sees(7, 0) && sight.sees(7, 5)
}

/// It strongly sees the first rows of the others, each of which rows of three members see, and not that of its own.
fn strongly_sees_three<S: Sight>(sight: &S) -> bool {
    sight.rows() == 9
        && sight.strongly_sees(8, 0)
        && sight.strongly_sees(8, 1)
        && sight.strongly_sees(8, 2)
        && !sight.strongly_sees(8, 3)
        && !sight.strongly_sees(6, 0)
        && !sight.strongly_sees(7, 0)
}

fn weighs_three_of_five<S: Sight>(sight: &S) -> bool {
    sight.rows() == 6
        && !sight.strongly_sees(3, 0)
        && sight.strongly_sees(4, 0)
        && sight.strongly_sees(3, 1)
        && sight.strongly_sees(4, 1)
        && sight.strongly_sees(5, 1)
        && !sight.strongly_sees(5, 2)
        && sight.total() == 5
}

fn strongly_sees_in_turn<S: Sight>(sight: &S) -> bool {
    sight.rows() == 5
        && sight.sees(2, 0)
        && sight.strongly_sees(2, 0)
        && !sight.strongly_sees(2, 1)
        && sight.strongly_sees(3, 0)
        && sight.strongly_sees(3, 1)
        && sight.strongly_sees(4, 2)
        && sight.strongly_sees(4, 3)
}
